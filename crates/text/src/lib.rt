#![tactic(auto)]

mod codes;
mod fault;
mod lexer;
mod line;
mod reader;
mod reading;
mod statement;
mod token;

pub use fault::{Cause, Fault};
pub use reading::{MAX_BYTES, read};
