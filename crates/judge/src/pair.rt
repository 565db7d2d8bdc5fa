// Rule 4: no unordered pair stands in two cells. A cell is held against the cells after it in its own list and against its
// target's list. How many cells are left and where they start are two numbers, as `Walks`, `Has` and `Alone` have them.
ghost use Rattle.std.specs.Prelude.{◌<◌};
ghost use Rattle.meaning.proofs.Judged.{CellOk, Walks, Has, Lone, Alone};
ghost use Rattle.terms.specs.Tells.{Tells};

use table::view::Table;

// One of the k cells from i on has target u.
#[tactic(auto, using(meaning::proofs::Judged::has_out, meaning::proofs::Judged::has_in, meaning::proofs::Judged::has_end))]
fn has(table: Table, u: usize, k: usize, i: usize) -> bool
    ensures { let t = table.entry in Tells result (Has t.room.n t.room.c t.words.now u k i) }
{
    let mut at = i;
    for _ in 0..k {
        if table.room.c <= at {
            return false;
        }
        if table.target(at) == u {
            return true;
        }
        at = table.next(at);
    }
    false
}

// The pair of cell i, in v's list with k cells after it, stands in no later cell of that list and not in its target's list.
fn lone(table: Table, v: usize, k: usize, i: usize) -> bool
    requires { (v < table.room.n) × CellOk table.room.n table.room.c table.words.now v i }
    ensures { let t = table.entry in Tells result (Lone t.room.n t.room.c t.words.now v k i) }
{
    let u = table.target(i);
    if has(table, u, k, table.next(i)) {
        return false;
    }
    !has(table, v, table.count(u), table.head(u))
}

// So for each of the k cells from i on.
#[tactic(auto, using(meaning::proofs::Judged::walks_out, meaning::proofs::Judged::alone_out, meaning::proofs::Judged::alone_in))]
pub fn alone(table: Table, v: usize, k: usize, i: usize) -> bool
    requires { (v < table.room.n) × Walks table.room.n table.room.c table.words.now v k i }
    ensures { let t = table.entry in Tells result (Alone t.room.n t.room.c t.words.now v k i) }
{
    let mut at = i;
    for left in (0..k).rev() {
        if !lone(table, v, left, at) {
            return false;
        }
        at = table.next(at);
    }
    true
}
