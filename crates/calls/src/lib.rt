// The public calls, for any numbers and any tables handed in: each judges them and then carries the call out. It knows no stream
// of records and no caller from C.
#![tactic(auto)]

ghost use Rattle.meaning.specs.Calls.{open_run, close_run, unlink, ask, reading};
ghost use Rattle.meaning.specs.Promise.{Promise, EmptyPromise, LinkPromise};

use store::{link, run, set};
use table::empty;
use terms::refusal::{Answer, Refusal};
use terms::run::Run;
use terms::size::Room;

// No run and no link: any words that the store held are gone.
pub fn empty(n: usize, c: usize, store: &mut [u32]) -> Answer
    ensures { EmptyPromise n c store.old result store.new }
{
    let room = Room::of(n, c).ok_or(Refusal::Sizes)?;
    if store.len() != room.store_words() {
        return Err(Refusal::Sizes);
    }
    empty::empty(store, room);
    Ok(0)
}

// The run takes the lowest free place, whose number is the answer.
pub fn open(n: usize, c: usize, d: usize, store: &mut [u32], run: Run) -> Answer
    ensures { Promise n c d (open_run run) store.old result store.new }
{
    let sizes = judge::judge(n, c, d, store)?;
    run::open(store, sizes, run)
}

// The run's place becomes free, if no link touches it.
pub fn close(n: usize, c: usize, d: usize, store: &mut [u32], run: Run) -> Answer
    ensures { Promise n c d (close_run run) store.old result store.new }
{
    let sizes = judge::judge(n, c, d, store)?;
    run::close(store, sizes, run)
}

// A new link of two runs. The answer is the number of reversals.
pub fn link(
    n: usize,
    c: usize,
    d: usize,
    store: &mut [u32],
    spare: &mut [u32],
    waiting: &mut [u32],
    p: Run,
    q: Run,
) -> Answer
    ensures { LinkPromise n c d p q store.old spare.old waiting.old result store.new spare.new waiting.new }
{
    if spare.len() != store.len() {
        return Err(Refusal::Sizes);
    }
    if waiting.len() != n {
        return Err(Refusal::Sizes);
    }
    let sizes = judge::judge(n, c, d, store)?;
    link::link(store, spare, waiting, sizes, p, q)
}

// The link of two runs is gone, and its cell is free.
pub fn unlink(n: usize, c: usize, d: usize, store: &mut [u32], p: Run, q: Run) -> Answer
    ensures { Promise n c d (unlink p q) store.old result store.new }
{
    let sizes = judge::judge(n, c, d, store)?;
    link::unlink(store, sizes, p, q)
}

// 1 where the two runs are linked, else 0.
pub fn ask(n: usize, c: usize, d: usize, store: &[u32], p: Run, q: Run) -> Answer
    ensures { Promise n c d (ask p q) store.now result store.now }
{
    let sizes = judge::judge(n, c, d, store)?;
    link::ask(store, sizes, p, q)
}

// The reading of a set of places.
pub fn reading(n: usize, c: usize, d: usize, store: &[u32], places: &[u32]) -> Answer
    ensures { Promise n c d (reading places.now) store.now result store.now }
{
    let sizes = judge::judge(n, c, d, store)?;
    set::reading(store, sizes, places)
}
