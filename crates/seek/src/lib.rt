// The sides of an entry, and the search for the entry that replaces a struck one.
#![tactic(auto)]

pub mod search;
pub mod side;
