// The board: the calls start, byte, gap and step.
#![tactic(auto)]

pub mod board;
pub mod sound;
