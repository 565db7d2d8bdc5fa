// The calls for programs in C and Rust, under the names that include/wormstrand.h declares and wormstrand_c exports. Each passes on
// a public call and packs its answer, with the names and the arguments that C has; it judges nothing and knows no table.
#![tactic(auto)]

ghost use Rattle.std.specs.Prelude.{◌^◌, ◌<◌, ◌≡◌};
ghost use Rattle.meaning.specs.Calls.{open_run, close_run, unlink, ask, reading};
ghost use Rattle.meaning.specs.Promise.{Promise, EmptyPromise, LinkPromise, StreamPromise};
ghost use Rattle.stream.specs.Streamed.{tables, result_of};
ghost use Rattle.wormstrand.specs.Pack.{named, pack, Packed, pack_result, PackedResult};

use stream::Streamed;
use stream::totals::Totals;
use terms::refusal::Answer;
use terms::run::Run;

// One more than the largest number: the refusal stands above it.
const NUMBERS: u64 = 4294967296;

// A number that is done has refusal 0, and a refusal has number 0: the packing that C knows.
fn pack(answer: Answer) -> u64
    ensures { result ≡ pack answer }
{
    match answer {
        Ok(number) => number,
        Err(why) => u64::from(why) * NUMBERS,
    }
}

pub fn ws_empty(n: usize, c: usize, store: &mut [u32]) -> u64
    ensures { Packed (λ a. EmptyPromise n c store.old a store.new) result }
{
    pack(calls::empty(n, c, store))
}

pub fn ws_open(n: usize, c: usize, d: usize, store: &mut [u32], line: u32, trip: u32) -> u64
    ensures { Packed (λ a. Promise n c d (open_run (named line trip)) store.old a store.new) result }
{
    pack(calls::open(n, c, d, store, Run { line, trip }))
}

pub fn ws_close(n: usize, c: usize, d: usize, store: &mut [u32], line: u32, trip: u32) -> u64
    ensures { Packed (λ a. Promise n c d (close_run (named line trip)) store.old a store.new) result }
{
    pack(calls::close(n, c, d, store, Run { line, trip }))
}

pub fn ws_link(
    n: usize,
    c: usize,
    d: usize,
    store: &mut [u32],
    spare: &mut [u32],
    waiting: &mut [u32],
    line1: u32,
    trip1: u32,
    line2: u32,
    trip2: u32,
) -> u64
    ensures { Packed (λ a. LinkPromise n c d (named line1 trip1) (named line2 trip2) store.old spare.old waiting.old a store.new spare.new waiting.new) result }
{
    let p = Run {
        line: line1,
        trip: trip1,
    };
    let q = Run {
        line: line2,
        trip: trip2,
    };
    pack(calls::link(n, c, d, store, spare, waiting, p, q))
}

pub fn ws_unlink(
    n: usize,
    c: usize,
    d: usize,
    store: &mut [u32],
    line1: u32,
    trip1: u32,
    line2: u32,
    trip2: u32,
) -> u64
    ensures { Packed (λ a. Promise n c d (unlink (named line1 trip1) (named line2 trip2)) store.old a store.new) result }
{
    let p = Run {
        line: line1,
        trip: trip1,
    };
    let q = Run {
        line: line2,
        trip: trip2,
    };
    pack(calls::unlink(n, c, d, store, p, q))
}

pub fn ws_ask(
    n: usize,
    c: usize,
    d: usize,
    store: &[u32],
    line1: u32,
    trip1: u32,
    line2: u32,
    trip2: u32,
) -> u64
    ensures { Packed (λ a. Promise n c d (ask (named line1 trip1) (named line2 trip2)) store.now a store.now) result }
{
    let p = Run {
        line: line1,
        trip: trip1,
    };
    let q = Run {
        line: line2,
        trip: trip2,
    };
    pack(calls::ask(n, c, d, store, p, q))
}

pub fn ws_reading(n: usize, c: usize, d: usize, store: &[u32], places: &[u32]) -> u64
    ensures { Packed (λ a. Promise n c d (reading places.now) store.now a store.now) result }
{
    pack(calls::reading(n, c, d, store, places))
}

// A stream that was stopped has both, a refusal and a number, packed likewise.
fn pack_result(streamed: Streamed) -> u64
    requires { streamed.carried < 2 ^ 32 }
    ensures { result ≡ pack_result (result_of streamed) }
{
    streamed.refusal() * NUMBERS + streamed.carried as u64
}

// What a stream's caller gets: the totals brought forward, and refusal and number in one.
#[derive(Clone, Copy)]
struct Brought {
    totals: Totals,
    packed: u64,
}

// The stream with its totals by value in and by value out: what the exported call does but for the lent totals.
fn bring_forward(
    n: usize,
    c: usize,
    d: usize,
    store: &mut [u32],
    spare: &mut [u32],
    waiting: &mut [u32],
    bytes: &[u8],
    answers: &mut [u32],
    totals: Totals,
) -> Brought
    ensures { PackedResult (λ a. StreamPromise n c d bytes.now (tables store.old spare.old waiting.old answers.old totals) a (tables store.new spare.new waiting.new answers.new result.totals)) result.packed }
{
    let streamed = stream::stream(n, c, d, store, spare, waiting, bytes, answers, totals);
    Brought {
        totals: streamed.totals,
        packed: pack_result(streamed),
    }
}

// The caller keeps the totals and lends them: they are brought forward in place.
pub fn ws_stream(
    n: usize,
    c: usize,
    d: usize,
    store: &mut [u32],
    spare: &mut [u32],
    waiting: &mut [u32],
    bytes: &[u8],
    answers: &mut [u32],
    totals: &mut Totals,
) -> u64
    ensures { PackedResult (λ a. StreamPromise n c d bytes.now (tables store.old spare.old waiting.old answers.old totals.old) a (tables store.new spare.new waiting.new answers.new totals.new)) result }
{
    let r = bring_forward(n, c, d, store, spare, waiting, bytes, answers, *totals);
    *totals = r.totals;
    r.packed
}
