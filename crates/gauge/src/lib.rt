// An entry beside a query and a box.
#![tactic(auto)]

pub mod bounds;
pub mod distance;
