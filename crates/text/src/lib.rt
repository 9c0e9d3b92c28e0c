// The line format of a journal, read as a stream: bytes come in pieces of any size, and no line is kept.
#![tactic(auto)]

pub mod command;
pub mod field;
pub mod line;
pub mod record;
