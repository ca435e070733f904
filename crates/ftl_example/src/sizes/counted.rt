//! Sums of sizes, counted up to 513.
ghost use Rattle.std.specs.Prelude.{◌≡◌, if◌then◌else◌, nat_le};
ghost use Rattle.ftl_example.specs.sizes.Least.{capped, lesser, plus};

/// The sum; none where one is none.
pub fn sum(x: Option<u32>, y: Option<u32>) -> Option<u32>
    ensures sum { result ≡ capped 513 (plus x y) }
{
    match (x, y) {
        (Some(a), Some(b)) => Some(cap(a as u64 + b as u64)),
        _ => None,
    }
}

fn cap(n: u64) -> u32
    ensures cap { result ≡ (if nat_le n 513 then n else 513) }
{
    if n <= 513 { n as u32 } else { 513 }
}

/// The lesser; the other where one is none.
pub fn lesser(x: Option<u32>, y: Option<u32>) -> Option<u32>
    ensures lesser { result ≡ lesser x y }
{
    match (x, y) {
        (None, _) => y,
        (_, None) => x,
        (Some(a), Some(b)) => { if a <= b { x } else { y } }
    }
}
