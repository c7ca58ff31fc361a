//! Sites by themselves, among which the texts of packets are carried: what they do is a run of one federation.
#![tactic(auto)]

pub mod laws;
