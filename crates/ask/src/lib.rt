// What is asked of a pool: the walk of look-up, boxes, the nearest. Nothing here writes to a table.
#![tactic(auto)]

pub mod boxes;
pub mod near;
pub mod query;
pub mod walk;
