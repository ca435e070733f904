//! Pools of items that are ready to be worked on, for workers in threads of their own. Each worker
//! has a hold, through which it puts items and takes them. A count of waiting items, which all
//! holds share, says whether there is one to take. What holds of it between any two steps stands in
//! `specs/Count`. What ties the count of a pool to `IsReached` is the rule of its table, and no
//! clause of a call: a clause knows of the count what one hold did and what its loads held.
#![tactic(auto)]

mod count;
mod deque;
mod flag_pool;
mod flag_row;
pub mod laws;
mod ready_pool;
mod steal_pool;

pub use flag_pool::{FlagHold, FlagPool};
pub use flag_row::FlagRow;
pub use ready_pool::ReadyPool;
pub use steal_pool::{StealHold, StealPool};
