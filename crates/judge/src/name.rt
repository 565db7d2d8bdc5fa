// Rule 1: every line word within its limit, a free place's number 0, and no two open places of one name.
ghost use Rattle.std.specs.Prelude.{ℕ, ◌<◌, ◌≡◌};
ghost use Rattle.judge.specs.Bucket.{buckets, bucket_of, Chains};
ghost use Rattle.meaning.proofs.Judged.{Line, Differ, Fresh};
ghost use Rattle.terms.specs.Tells.{Tells};

use table::view::Table;
use terms::run::Run;
use terms::size::Room;

// Buckets of names: twice as many as there are places at most.
const BUCKETS: usize = 2 * Room::PLACES_MOST;

// One place, without the names of others.
pub fn line(table: Table, v: usize) -> bool
    requires { v < table.room.n }
    ensures { let t = table.entry in Tells result (Line t.room.n t.room.c t.words.now v) }
{
    let run = table.run(v);
    if run.line > Run::LINE_MOST {
        return false;
    }
    if run.line == 0 {
        return run.trip == 0;
    }
    true
}

// Place u has not the name of v, if v is open.
fn differ(table: Table, v: usize, u: usize) -> bool
    requires { (v < table.room.n) × (u < table.room.n) }
    ensures { let t = table.entry in Tells result (Differ t.room.n t.room.c t.words.now v u) }
{
    let run = table.run(v);
    if run.line == 0 {
        return true;
    }
    table.run(u) != run
}

// The bucket of v's name: places of one name have one bucket.
#[tactic(auto, unfolding(crate::specs::Bucket::bucket_of))]
fn bucket(table: Table, v: usize) -> usize
    requires { v < table.room.n }
    ensures { let t = table.entry in (result ≡ bucket_of t.room.n t.room.c t.words.now v) × (result < buckets) }
{
    (table.number(v) + 4099 * table.line(v)) % BUCKETS
}

// No place below v has v's name, if v is open: only the places of v's bucket are compared. `last` is one more than the last of
// them, 0 where there is none, and `before` says the same of each place for its own bucket. A free place is not compared: the
// free places are all in one bucket. The positions are words of two bytes in fixed memory, since every judging clears them
// all: over `Option<u16>` the walk was tried in plain Rust and took 3 times as long with 4,096 places, 17 times with 256 and 43
// times with 16, and the judge has to stay below plain Rust (docs/BENCH.md).
#[tactic(auto, using(crate::proofs::Buckets::one_bucket))]
fn fresh(table: Table, v: usize, last: usize, before: &[u16; Room::PLACES_MOST]) -> bool
    requires { (v < table.room.n) × Chains table.room.n table.room.c table.words.now v last before.now }
    ensures { let t = table.entry in Tells result (Fresh t.room.n t.room.c t.words.now v) }
{
    if table.line(v) == 0 {
        return true;
    }
    // The walk follows the bucket, no index counts it.
    let mut u = last;
    while 0 < u {
        if !differ(table, v, u - 1) {
            return false;
        }
        u = before[u - 1] as usize;
    }
    true
}

// No two open places agree in both line and number.
pub fn names(table: Table) -> bool
    ensures { let t = table.entry in Tells result ((v : ℕ) → v < t.room.n → Fresh t.room.n t.room.c t.words.now v) }
{
    let mut lasts = [0u16; BUCKETS];
    let mut before = [0u16; Room::PLACES_MOST];
    for v in 0..table.room.n {
        let b = bucket(table, v);
        let last = lasts[b];
        if !fresh(table, v, last as usize, &before) {
            return false;
        }
        before[v] = last;
        lasts[b] = v as u16 + 1;
    }
    true
}
