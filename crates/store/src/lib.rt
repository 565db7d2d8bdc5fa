// The calls on a store that is known to be sound, each proved against what document 01 says it does. It judges nothing: whoever
// calls has judged the table, once for as many calls as it likes. That it is sound is a clause of each call and no type's fact: the
// words are lent to be written, and while a call writes them they are threaded and no more.
#![tactic(auto)]

pub mod link;
pub mod run;
pub mod set;
