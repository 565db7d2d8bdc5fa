// The terms that every other crate takes from here: the sizes with their limits, a run's name, the refusals and the
// answers. It knows no table of words and no byte of a stream.
#![tactic(auto)]

pub mod refusal;
pub mod run;
pub mod size;
