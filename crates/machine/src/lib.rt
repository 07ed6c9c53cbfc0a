//! The command machine: twelve commands on lent lists, one at a time or as a run; Specification: Commands.
#![tactic(auto)]

mod accept;
pub mod answer;
pub mod arguments;
pub mod code;
pub mod command;
pub mod commands;
mod entry;
mod judge;
pub mod kind;
pub mod lent;
pub mod operation;
pub mod promises;
pub mod refusal;
pub mod row;
pub mod run;
mod step;
