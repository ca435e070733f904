//! The node and the attribute that a key tells.
ghost use Rattle.std.specs.Prelude.{◌≡◌, ℕ, ◌<◌, ◌+◌, ◌*◌};

/// The two last digits of a key: the node and the attribute.
pub(crate) fn told(key: u128) -> (u32, u32)
    ensures node { (high n a : ℕ) → n < 2097152 → a < 2097152
        → key ≡ (high * 2097152 + n) * 2097152 + a → result.0 ≡ n }
    ensures attribute { (high n a : ℕ) → n < 2097152 → a < 2097152
        → key ≡ (high * 2097152 + n) * 2097152 + a → result.1 ≡ a }
{
    let node = key / 2097152 % 2097152;
    let attr = key % 2097152;
    (node as u32, attr as u32)
}
