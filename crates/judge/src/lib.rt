// The judge: whether the sizes are within their limits, the table has their length and is sound, for any words. It only reads,
// ends on every table and stays inside it: chains are followed by their length words, never until they happen to end. It knows no
// call.
#![tactic(auto)]

ghost use Rattle.std.specs.Prelude.{ℕ, ◌<◌};
ghost use Rattle.judge.specs.Judging.{Listed, Sizing, Says};
ghost use Rattle.meaning.proofs.Judged.{Judged};
ghost use Rattle.terms.specs.Tells.{Tells};

use table::view::Table;
use terms::refusal::Refusal;
use terms::size::{Limit, Room, Sizes};

pub mod chain;
pub mod name;
pub mod pair;

// The sizes, where they are within their limits and the table has their length.
fn sized(n: usize, c: usize, d: usize, store: &[u32]) -> Option<Sizes>
    ensures { Sizing result n c d store.now }
{
    let limit = Limit::of(d)?;
    let room = Room::of(n, c)?;
    if store.len() != room.store_words() {
        return None;
    }
    Some(Sizes { room, limit })
}

// One place: its line, its list and its pairs.
fn place(table: Table, v: usize) -> bool
    requires { v < table.room.n }
    ensures { let t = table.entry in Tells result (Listed t.room.n t.room.c t.words.now v) }
{
    if !name::line(table, v) {
        return false;
    }
    let start = table.head(v);
    let many = table.count(v);
    if !chain::walk(table, v, many, start) {
        return false;
    }
    pair::alone(table, v, many, start)
}

fn places(table: Table) -> bool
    ensures { let t = table.entry in Tells result ((v : ℕ) → v < t.room.n → Listed t.room.n t.room.c t.words.now v) }
{
    (0..table.room.n).all(|v| place(table, v))
}

// The whole test, what costs least first: the lengths, the free list, the names, the places. It stays a call of its own, so that wrong
// sizes are refused before the buckets of the names have their place on the stack.
#[inline(never)]
fn sound(table: Table, d: usize) -> bool
    ensures { let t = table.entry in Tells result (Judged t.room.n t.room.c t.words.now d) }
{
    if !chain::lengths(table, d) {
        return false;
    }
    let free = table.room.n;
    if !chain::walk(table, free, table.count(free), table.head(free)) {
        return false;
    }
    if !name::names(table) {
        return false;
    }
    places(table)
}

// Any numbers and any table: the sizes of a sound store, refusal 1 before refusal 2.
pub fn judge(n: usize, c: usize, d: usize, store: &[u32]) -> Result<Sizes, Refusal>
    ensures { Says result n c d store.now }
{
    let sizes = sized(n, c, d, store).ok_or(Refusal::Sizes)?;
    let table = Table {
        words: store,
        room: sizes.room,
    };
    if !sound(table, sizes.limit.d) {
        return Err(Refusal::Unsound);
    }
    Ok(sizes)
}
