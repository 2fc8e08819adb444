//! Command files: what a session is asked for, as a person writes it.
#![tactic(auto)]

mod columns;
mod command;
mod expressions;
mod guards;
mod reading;
mod refusal;
mod selects;
mod summary;

pub use command::{Command, SummaryEdit};
pub use guards::slip_in;
pub use reading::read_commands;
pub use refusal::{Refusal, refusal_in};
