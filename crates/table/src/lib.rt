// The words of a lent table, by section: reading one, writing one, copying a whole table, and the empty table. It knows where each
// section stands and nothing of what a sound table is: every caller shows that a place or a cell is within the table.
#![tactic(auto)]

pub mod empty;
pub mod section;
pub mod step;
pub mod view;
pub mod whole;
