// The transcript of a line: bytes given to a board one by one, and a line of text for each answer.
#![tactic(auto)]

pub mod decimal;
pub mod feed;
pub mod line;
