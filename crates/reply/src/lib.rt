// The one gate of refusals, and the one maker of each kind of answer.
#![tactic(auto)]

pub mod answer;
pub mod gate;
