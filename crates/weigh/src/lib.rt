// What a call brings, weighed against a pool that is known to be sound, before anything is written.
#![tactic(auto)]

pub mod items;
pub mod judging;
pub mod known;
pub mod lines;
pub mod pool;
pub mod step;
