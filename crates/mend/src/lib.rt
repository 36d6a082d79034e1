// The upward check of one entry, which rebuilds its subtree where it is uneven.
#![tactic(auto)]

pub mod lists;
pub mod little;
pub mod upward;
