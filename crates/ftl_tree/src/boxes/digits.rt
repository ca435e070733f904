//! Numbers in decimal, two digits at a time.

ghost use Rattle.std.specs.Prelude.{◌≡◌, ◌≤◌, ◌+◌, ◌/◌, ◌%◌, ◌<◌, ◌∷◌, [], ◌++◌, length, take};
ghost use Rattle.std.specs.Fmt.{decimal};

use crate::boxes::room::put_byte;

/// The numbers below a hundred, of two digits each.
static PAIRS: [u8; 200] = *b"0001020304050607080910111213141516171819\
    2021222324252627282930313233343536373839\
    4041424344454647484950515253545556575859\
    6061626364656667686970717273747576777879\
    8081828384858687888990919293949596979899";

/// Writes a number of eight digits at most behind a text, and tells how long the text is then.
#[inline(always)]
pub(crate) fn put_eight(bytes: &mut [u8], end: usize, number: u32) -> usize
    requires short { number < 100000000 }
    requires room { end + 8 ≤ length bytes.old }
    ensures text { take result bytes.new ≡ take end bytes.old ++ decimal number }
    ensures within { result ≤ end + 8 }
{
    if number < 10_000 {
        return put_four(bytes, end, number);
    }
    let low = number % 10_000;
    let end = put_four(bytes, end, number / 10_000);
    let end = put_pair(bytes, end, low / 100);
    put_pair(bytes, end, low % 100)
}

/// Of four digits at most.
#[inline(always)]
fn put_four(bytes: &mut [u8], end: usize, number: u32) -> usize
    requires short { number < 10000 }
    requires room { end + 4 ≤ length bytes.old }
    ensures text { take result bytes.new ≡ take end bytes.old ++ decimal number }
    ensures within { result ≤ end + 4 }
{
    if number < 100 {
        return put_two(bytes, end, number);
    }
    let end = put_two(bytes, end, number / 100);
    put_pair(bytes, end, number % 100)
}

/// Of two digits at most.
#[inline(always)]
fn put_two(bytes: &mut [u8], end: usize, number: u32) -> usize
    requires short { number < 100 }
    requires room { end + 2 ≤ length bytes.old }
    ensures text { take result bytes.new ≡ take end bytes.old ++ decimal number }
    ensures within { result ≤ end + 2 }
{
    if number < 10 {
        return put_byte(bytes, end, b'0' + number as u8);
    }
    put_pair(bytes, end, number)
}

/// Two digits, zeros among them.
#[inline(always)]
fn put_pair(bytes: &mut [u8], end: usize, number: u32) -> usize
    requires short { number < 100 }
    requires room { end + 2 ≤ length bytes.old }
    ensures text { take result bytes.new
        ≡ take end bytes.old ++ (48 + number / 10) ∷ (48 + number % 10) ∷ [] }
    ensures end { result ≡ end + 2 }
{
    let from = number as usize * 2;
    let end = put_byte(bytes, end, PAIRS[from]);
    put_byte(bytes, end, PAIRS[from + 1])
}
