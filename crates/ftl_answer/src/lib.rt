//! The answer to words and to the bytes of a page. Goes in: words and bytes, as definitions see
//! them. Comes out: the status and the text that they are answered with, what is promised of a call
//! that writes it, and the lines that refuse, with the calls that write them.
//!
//! - `refusals`: the line of each fault of a page, a text, a grammar, a schedule, a document, a
//!   plan or edits
//! - `worked_lines`: refusal lines that were typed by hand
//! - `answers`: the answer, built of stages each of which ends with a refusal or hands a value on
//! - `changes`: `write_touched`: how many instances edits touched
//! - `explanations`: `print_example`: the text of an example of a refused pair
//! - `summary`: `print_summary`: the summary of a sample
//! - `headline`: what is promised of the status, the text, the faults and the input
//! - `reading`: what words and a page ask for: `requested`; and what is written after: `written`
#![tactic(auto)]

pub mod answers;
pub mod changes;
pub mod explanations;
pub mod headline;
pub mod reading;
pub mod refusals;
pub mod summary;
pub mod worked_lines;

pub use answers::one_answer;
pub use changes::write_touched;
pub use explanations::print_example;
pub use headline::{answers_have_statuses, one_table};
pub use refusals::{
    write_circular_fault, write_document_fault, write_edit_fault, write_grammar_fault,
    write_page_fault, write_plan_fault, write_schedule_fault, write_stuck, write_syntax_fault,
    write_token_fault, write_verify_fault,
};
pub use summary::print_summary;
