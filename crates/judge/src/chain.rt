// Rules 2 and 3: the lengths, and each list as a chain of its own cells that aim right. A walk follows the chain itself, here and in
// `pair`: an iterator over a chain could ask nothing of a cell before it goes on, and nothing is known of these cells yet.
ghost use Rattle.std.specs.Prelude.{◌≤◌, ◌<◌};
ghost use Rattle.meaning.proofs.Judged.{Lengths, Aim, CellOk, Walks};
ghost use Rattle.terms.specs.Tells.{Tells};

use table::section::NONE;
use table::view::Table;

// The lengths of all lists add up to c, and those of places are at most d.
#[tactic(auto, using(meaning::proofs::Judged::lengths_none, meaning::proofs::Judged::lengths_more))]
pub fn lengths(table: Table, d: usize) -> bool
    ensures { let t = table.entry in Tells result (Lengths t.room.n t.room.c t.words.now d) }
{
    let mut sum: usize = 0;
    for v in 0..table.room.n {
        let more = table.count(v);
        if d < more {
            return false;
        }
        sum += more;
    }
    sum + table.count(table.room.n) == table.room.c
}

// A cell in the list of v, by its target; n stands for the free list.
fn aim(table: Table, v: usize, i: usize) -> bool
    requires { (v ≤ table.room.n) × (i < table.room.c) }
    ensures { let t = table.entry in Tells result (Aim t.room.n t.room.c t.words.now v i) }
{
    let n = table.room.n;
    let u = table.target(i);
    if v == n {
        return u == NONE;
    }
    if n <= u {
        return false;
    }
    if u == v {
        return false;
    }
    if table.line(v) == 0 {
        return false;
    }
    table.line(u) != 0
}

// A cell in the list of v: within the table, owned by v and aiming right.
fn cell(table: Table, v: usize, i: usize) -> bool
    requires { v ≤ table.room.n }
    ensures { let t = table.entry in Tells result (CellOk t.room.n t.room.c t.words.now v i) }
{
    if table.room.c <= i {
        return false;
    }
    if table.owner(i) != v {
        return false;
    }
    aim(table, v, i)
}

// From cell i, NONE is reached after exactly k cells, each right for the list of v.
#[tactic(auto, using(meaning::proofs::Judged::walks_out, meaning::proofs::Judged::walks_in, meaning::proofs::Judged::walks_end))]
pub fn walk(table: Table, v: usize, k: usize, i: usize) -> bool
    requires { v ≤ table.room.n }
    ensures { let t = table.entry in Tells result (Walks t.room.n t.room.c t.words.now v k i) }
{
    let mut at = i;
    for _ in 0..k {
        if !cell(table, v, at) {
            return false;
        }
        at = table.next(at);
    }
    at == NONE
}
