//! Scans the tokens of the text on standard input, and tells how many there are. With any word it
//! does so ten times, and tells the least nanoseconds that one scan took first.
#![tactic(auto)]

use ftl_edge::{StdSource, read_all};
use ftl_tokens::tokens;
use std::time::Instant;
use std::{env, io};

/// The most bytes of a text.
const MAX_TEXT: usize = 67108864;

fn main(rt: HostRuntime) -> io::Result<()> {
    let scans = if env::args(&rt)?.count() > 1 { 10 } else { 1 };
    let mut source = StdSource::new(&rt);
    let Ok(bytes) = read_all(rt.alloc(), &mut source, MAX_TEXT) else {
        println!(rt; "not read")?;
        return Ok(());
    };
    let Ok(text) = String::from_utf8(bytes) else {
        println!(rt; "no text")?;
        return Ok(());
    };
    let mut least = u128::MAX;
    let mut count = 0;
    for _ in 0..scans {
        let copy = text.clone()?;
        let start = Instant::now(&rt)?;
        let Ok(scanned) = tokens(rt.alloc(), copy) else {
            println!(rt; "no tokens")?;
            return Ok(());
        };
        least = least.min(start.elapsed(&rt)?.as_nanos());
        count = scanned.list().len();
    }
    if scans > 1 {
        print!(rt; "{least} ")?;
    }
    println!(rt; "{count} tokens")?;
    Ok(())
}
