use ftl_base::{CodeStack, Val};
use ftl_cells::Hand;
use ftl_pool::StealHold;

/// What one worker works with.
#[derive(Drop)]
pub(crate) struct Member {
    pub(crate) number: u32,
    pub(crate) hand: Hand,
    pub(crate) hold: StealHold,
    pub(crate) reads: Vec<Val>,
    pub(crate) stack: CodeStack,
}
