// Weekly schedules: seven programs in the store, and their sixteen numbers as sent.
#![tactic(auto)]

pub mod numbers;
pub mod programs;
