//! What readers of token lists share. A reader takes tokens from the front of a list and gives a
//! value, or refuses at a token: `specs/reading/Reader.antt` has the readers that all others are
//! made of. `Input` is the cursor that code reads with, and `WideInput` the one for documents,
//! whose numbers are wider. `specs/reading/Depth.antt` says how many brackets are open at a token,
//! and `specs/reading/Place.antt` where tokens go wrong, for any relation that says what they
//! spell.

mod brackets;
mod bytes;
mod chain_item;
mod fault;
mod input;
mod wide;

pub use brackets::{first_too_deep, first_too_deep_in};
pub use bytes::{place, place_in};
pub use chain_item::ChainItem;
pub use fault::ReadFault;
pub use input::Input;
pub use wide::WideInput;
