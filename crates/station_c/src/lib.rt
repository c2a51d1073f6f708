// The station for the host program in C: numbers, lent numbers and byte slices. Refusals are the rules' numbers.
#![tactic(auto)]

pub mod encode;
pub mod read;
