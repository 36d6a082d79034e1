// Slots ranked by the super key.
#![tactic(auto)]

pub mod key;
pub mod merge;
pub mod short;
pub mod three;
