/// What a hand is about to do.
#[derive(Clone, Copy, Debug, PartialEq, Eq)]
pub enum HandPlace {
    /// It has no item.
    Idle,
    /// It found that all predecessors of the item have delivered.
    Looked { item: u32 },
    /// It claimed the item, and has filled the steps before `step` and made `reads` reads of it.
    Working { item: u32, step: u32, reads: u32 },
    /// It marked the item as filled.
    Filled { item: u32 },
    /// It has delivered to the first `sent` of the next items.
    Sending { item: u32, sent: u32 },
    /// It found that all items are filled.
    Ended,
}
