// Finding in a threaded table: the place of a run, the lowest free place, where a list has a link, whether a link touches a place.
// It only reads, and knows no call: what is made of what it finds is the caller's. That a table is threaded is a clause and no fact
// of the view: the judge reads tables that are not, and after each word that is written it has to be shown anew.
#![tactic(auto)]

pub mod touch;

ghost use Rattle.std.specs.Prelude.{◌<◌, ◌≡◌};
ghost use Rattle.meaning.specs.Cells.{links};
ghost use Rattle.meaning.specs.Day.{day_of, place_of, lowest};
ghost use Rattle.meaning.proofs.Threaded.{Threaded};
ghost use Rattle.find.specs.Find.{Placed, Seeks, Links, Finds};

use table::section;
use table::view::Table;
use terms::refusal::Refusal;
use terms::run::Run;

// The place that has the run's line and trip number.
pub fn place(table: Table, run: Run) -> Option<usize>
    ensures { let t = table.entry in Placed result t.room.n (place_of (day_of t.room.n t.room.c t.words.now) run) }
{
    (0..table.room.n).find(|v| table.run(*v) == run)
}

// The lowest place with line 0.
pub fn free_place(table: Table) -> Option<usize>
    ensures { let t = table.entry in Placed result t.room.n (lowest (day_of t.room.n t.room.c t.words.now)) }
{
    (0..table.room.n).find(|v| table.line(*v) == 0)
}

// The number of links that stand: every cell that is not free.
pub fn standing(table: Table) -> usize
    requires { Threaded table.room.n table.room.c table.words.now }
    ensures { let t = table.entry in result ≡ links (day_of t.room.n t.room.c t.words.now).lists }
{
    table.room.c - table.count(table.room.n)
}

// Where a link stands: the place in whose list, its cell, its position in the list counted from 0, and the position in the table
// of the word that names the cell.
#[derive(Clone, Copy)]
pub struct Spot {
    pub list: usize,
    pub cell: usize,
    pub position: usize,
    pub hook: usize,
}

// Where the list of v has a link to u. The walk is its own: it stops at a cell and keeps the word that names it, which an iterator
// over the cells would not.
pub fn seek(table: Table, v: usize, u: usize) -> Option<Spot>
    requires { Threaded table.room.n table.room.c table.words.now × (v < table.room.n) }
    ensures { let t = table.entry in Seeks result t.room.n t.room.c t.words.now v u }
{
    let mut cell = table.head(v);
    let mut hook = section::head_at(table.room, v);
    for position in 0..table.count(v) {
        if table.target(cell) == u {
            return Some(Spot {
                list: v,
                cell,
                position,
                hook,
            });
        }
        hook = section::next_at(table.room, cell);
        cell = table.next(cell);
    }
    None
}

// Where the link of the places u and v stands: each is looked for in the other's list.
pub fn link_of(table: Table, u: usize, v: usize) -> Option<Spot>
    requires { Threaded table.room.n table.room.c table.words.now × (u < table.room.n) × (v < table.room.n) }
    ensures { let t = table.entry in Links result t.room.n t.room.c t.words.now u v }
{
    if let Some(spot) = seek(table, u, v) {
        return Some(spot);
    }
    seek(table, v, u)
}

// The places of two runs.
#[derive(Clone, Copy)]
pub struct Ends {
    pub first: usize,
    pub second: usize,
}

// The places of two named runs, or why there are none: a bad name, the same run twice, a run that is not open.
pub fn both(table: Table, p: Run, q: Run) -> Result<Ends, Refusal>
    ensures { let t = table.entry in Finds result t.room.n t.room.c t.words.now p q }
{
    if p.is_bad() || q.is_bad() {
        return Err(Refusal::BadName);
    }
    if p == q {
        return Err(Refusal::SameRun);
    }
    let first = place(table, p).ok_or(Refusal::NotOpen)?;
    let second = place(table, q).ok_or(Refusal::NotOpen)?;
    Ok(Ends { first, second })
}
