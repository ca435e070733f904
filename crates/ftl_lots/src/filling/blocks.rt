//! Blocks of items of which the caller knows that none has a step.
ghost use Rattle.std.specs.Prelude.{◌≡◌, ◌↔◌, ℕ, ◌<◌, ◌≤◌, IsTrue};
ghost use Rattle.ftl_lots.specs.filling.Blocks.{IsPassedOver, block_of};

/// How many items a block has.
const BLOCK: u32 = 64;

/// For each block of 64 items that follow one another a set of bits, and the wanted bits. The items
/// of a block whose set has none of these are passed over. Items beyond the sets never are.
#[derive(Clone, Copy)]
pub struct ItemBlocks<'a> {
    /// One for each block, as far as they go.
    pub sets: &'a [u128],

    /// The bits of the sets of blocks that aren't passed over.
    pub wanted: u128,
}

impl<'a> ItemBlocks<'a> {
    /// The first item from this one on, and before the end, that isn't passed over; else the end.
    pub(crate) fn next(self, item: u32, end: u32) -> u32
        ensures later { item ≤ result }
        ensures within { item ≤ end → result ≤ end }
        ensures passed { (i : ℕ) → item ≤ i → i < result → IsPassedOver self.entry i }
        ensures stops { result < end → ¬ IsPassedOver self.entry result }
    {
        let mut next = item;
        while next < end && self.passes_over(next) {
            next = next_block(next, end);
        }
        next
    }

    /// Whether an item is passed over.
    fn passes_over(self, item: u32) -> bool
        ensures same { IsTrue result ↔ IsPassedOver self.entry item }
    {
        match self.sets.get((item / BLOCK) as usize) {
            Some(set) => *set & self.wanted == 0,
            None => false,
        }
    }
}

/// The first item of the block after that of this item, or the end where that comes before.
fn next_block(item: u32, end: u32) -> u32
    requires before { item < end }
    ensures later { item < result }
    ensures within { result ≤ end }
    ensures same { (i : ℕ) → item ≤ i → i < result → block_of i ≡ block_of item }
{
    let left = BLOCK - item % BLOCK;
    item + left.min(end - item)
}
