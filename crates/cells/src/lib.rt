// One slot: its numbers and links, and the one comparison.
#![tactic(auto)]

pub mod order;
pub mod pool;
pub mod slot;
