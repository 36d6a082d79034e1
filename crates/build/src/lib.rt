// The slots of a subtree gathered, and the subtree rebuilt over them in place.
#![tactic(auto)]

pub mod few;
pub mod gather;
pub mod rebuild;
