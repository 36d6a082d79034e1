// What a call does to a pool, each part on what its caller has made sure of.
#![tactic(auto)]

pub mod change;
pub mod fresh;
pub mod spare;
pub mod taking;
pub mod working;
