//! Sessions: the run of a file's commands, and the text that `pool` prints of it; Specification: Sessions.
#![tactic(auto)]

mod answer;
mod contents;
pub mod promises;
mod report;
mod run;
mod sheet;
mod text;
mod words;

pub use answer::SessionAnswer;
pub use report::{BYTES, TEXT, pool};
pub use sheet::{WORDS, session};

/// The version of this repository.
pub const VERSION: &str = "0.1.0";
