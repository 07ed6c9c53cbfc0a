//! The engine for other languages: a library with a C interface, which include/ declares.
//! A slice is passed as a pointer and its length in elements.
#![tactic(auto)]

pub mod command;
pub mod refusal;
pub mod sessions;
pub mod text;
pub mod version;
