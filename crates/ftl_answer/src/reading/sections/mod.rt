//! The stages from the bytes of a page to its tree. Goes in: bytes, or the text of a section. Comes
//! out: the sections of the page, the grammar that was checked, the schedule that was verified, the
//! tree whose stages read no more than they may, and its edits, or where no schedule plays a part
//! the grammar that is noncircular and the tree; or the refusal line with its status. Each call
//! has the outcome that `crate::answers` says its stage has, as
//! `specs/reading/sections/Outcomes.antt` puts it.

mod automatic;
mod building;
mod checking;
mod circularity;
mod decision;
mod editing;
mod growing;
mod limits;
mod read;
mod scheduling;
mod status;
mod written;

pub use automatic::automatic_schedule;
pub use building::tree_of_document;
pub use checking::{grammar_of, grammar_of_text};
pub use circularity::noncircular_of;
pub use decision::{Decided, Undecided};
pub use editing::edits_of;
pub use growing::{grown_tree_of, tree_of};
pub(crate) use read::MOST_BYTES;
pub use read::{read_page, section_tokens};
pub use scheduling::schedule_of;
pub use status::Status;
pub use written::written_schedule;
pub(crate) use written::{schedule_refused, verify_refused};
