// Adding to and striking from a tree in lent memory. The pool is sound where these begin, and is not judged again.
#![tactic(auto)]

pub mod insert;
pub mod strike;
