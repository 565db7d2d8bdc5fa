// Cells that go from list to list: one cell moves, a new link's cell is added, lists that are too long are turned over. It knows
// places and not names: whoever calls has found the runs, and shows that the table is threaded. Store, spare and waiting are three
// parameters: a struct of them would be made where C's call is taken and taken apart where the spare is filled, and its clauses
// would say of fields what they say of parameters.
#![tactic(auto)]

pub mod cell;
pub mod join;
pub mod turning;
