// The exports for programs in C and Rust, under the names that include/wormstrand.h declares. Each calls the function of its name
// in wormstrand and states its clauses again: C's callers link to these, and the static library has to define them itself. It knows
// nothing of how an answer is packed.
#![tactic(auto)]

ghost use Rattle.meaning.specs.Calls.{open_run, close_run, unlink, ask, reading};
ghost use Rattle.meaning.specs.Promise.{Promise, EmptyPromise, LinkPromise, StreamPromise};
ghost use Rattle.stream.specs.Streamed.{tables};
ghost use Rattle.wormstrand.specs.Pack.{named, Packed, PackedResult};

use stream::totals::Totals;

#[unsafe(no_mangle)]
pub extern "C" fn ws_empty(n: usize, c: usize, store: &mut [u32]) -> u64
    ensures { Packed (λ a. EmptyPromise n c store.old a store.new) result }
{
    wormstrand::ws_empty(n, c, store)
}

#[unsafe(no_mangle)]
pub extern "C" fn ws_open(
    n: usize,
    c: usize,
    d: usize,
    store: &mut [u32],
    line: u32,
    trip: u32,
) -> u64
    ensures { Packed (λ a. Promise n c d (open_run (named line trip)) store.old a store.new) result }
{
    wormstrand::ws_open(n, c, d, store, line, trip)
}

#[unsafe(no_mangle)]
pub extern "C" fn ws_close(
    n: usize,
    c: usize,
    d: usize,
    store: &mut [u32],
    line: u32,
    trip: u32,
) -> u64
    ensures { Packed (λ a. Promise n c d (close_run (named line trip)) store.old a store.new) result }
{
    wormstrand::ws_close(n, c, d, store, line, trip)
}

#[unsafe(no_mangle)]
pub extern "C" fn ws_link(
    n: usize,
    c: usize,
    d: usize,
    store: &mut [u32],
    spare: &mut [u32],
    waiting: &mut [u32],
    line1: u32,
    trip1: u32,
    line2: u32,
    trip2: u32,
) -> u64
    ensures { Packed (λ a. LinkPromise n c d (named line1 trip1) (named line2 trip2) store.old spare.old waiting.old a store.new spare.new waiting.new) result }
{
    wormstrand::ws_link(n, c, d, store, spare, waiting, line1, trip1, line2, trip2)
}

#[unsafe(no_mangle)]
pub extern "C" fn ws_unlink(
    n: usize,
    c: usize,
    d: usize,
    store: &mut [u32],
    line1: u32,
    trip1: u32,
    line2: u32,
    trip2: u32,
) -> u64
    ensures { Packed (λ a. Promise n c d (unlink (named line1 trip1) (named line2 trip2)) store.old a store.new) result }
{
    wormstrand::ws_unlink(n, c, d, store, line1, trip1, line2, trip2)
}

#[unsafe(no_mangle)]
pub extern "C" fn ws_ask(
    n: usize,
    c: usize,
    d: usize,
    store: &[u32],
    line1: u32,
    trip1: u32,
    line2: u32,
    trip2: u32,
) -> u64
    ensures { Packed (λ a. Promise n c d (ask (named line1 trip1) (named line2 trip2)) store.now a store.now) result }
{
    wormstrand::ws_ask(n, c, d, store, line1, trip1, line2, trip2)
}

#[unsafe(no_mangle)]
pub extern "C" fn ws_reading(n: usize, c: usize, d: usize, store: &[u32], places: &[u32]) -> u64
    ensures { Packed (λ a. Promise n c d (reading places.now) store.now a store.now) result }
{
    wormstrand::ws_reading(n, c, d, store, places)
}

#[unsafe(no_mangle)]
pub extern "C" fn ws_stream(
    n: usize,
    c: usize,
    d: usize,
    store: &mut [u32],
    spare: &mut [u32],
    waiting: &mut [u32],
    bytes: &[u8],
    answers: &mut [u32],
    totals: &mut Totals,
) -> u64
    ensures { PackedResult (λ a. StreamPromise n c d bytes.now (tables store.old spare.old waiting.old answers.old totals.old) a (tables store.new spare.new waiting.new answers.new totals.new)) result }
{
    wormstrand::ws_stream(n, c, d, store, spare, waiting, bytes, answers, totals)
}
