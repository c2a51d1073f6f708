// The reply that a text holds.
#![tactic(auto)]

pub mod read;
