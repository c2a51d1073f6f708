// The station: an encoder of requests and a reader of replies.
#![tactic(auto)]

pub mod encode;
pub mod read;
