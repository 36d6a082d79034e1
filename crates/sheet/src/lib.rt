// What a call writes out from a pool that is known to be sound: an entry, a list, a text.
#![tactic(auto)]

pub mod cut;
pub mod listing;
pub mod saving;
pub mod spare;
