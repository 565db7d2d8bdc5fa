// The stream: a day's records carried out in order on a store that is judged once. It knows the calls on a sound store and the
// record reader, and nothing of how either does its work.
#![tactic(auto)]

pub mod carry;
pub mod totals;

ghost use Rattle.std.specs.Prelude.{◌+◌, ◌<◌, ◌≡◌};
ghost use Rattle.meaning.specs.Promise.{StreamLent, StreamCarries, StreamPromise, stop_number};
ghost use Rattle.meaning.specs.Soundness.{Sound};
ghost use Rattle.stream.specs.Streamed.{tables, result_of, Fitting, Stopped};
ghost use Rattle.terms.specs.Tells.{Tells};

use carry::step;
use record::{Record, reader};
use terms::refusal::Refusal;
use terms::size::{Length, Sizes};
use totals::Totals;

// How a stream ended: at the end of its bytes, or stopped by a refusal; how many records were carried out; the totals.
#[derive(Clone, Copy)]
pub struct Streamed {
    pub stop: Option<Refusal>,
    pub carried: usize,
    pub totals: Totals,
}

impl Streamed {
    // The refusal's number, 0 at the end of the bytes, as document 01 has it.
    pub fn refusal(self) -> u64
        ensures { result ≡ stop_number self.stop }
    {
        match self.stop {
            Some(why) => u64::from(why),
            None => 0,
        }
    }
}

// The records in order: the reader is handed the rest of the stream that starts after the record before, and says where it ends, so
// no range counts them.
fn carry_all(
    store: &mut [u32],
    spare: &mut [u32],
    waiting: &mut [u32],
    answers: &mut [u32],
    sizes: Sizes,
    bytes: &[u8],
    totals: Totals,
) -> Streamed
    requires { StreamLent sizes.room.n sizes.room.c sizes.limit.d bytes.now (tables store.old spare.old waiting.old answers.old totals) × Sound sizes.room.n sizes.room.c sizes.limit.d store.old }
    ensures { StreamCarries sizes.room.n sizes.room.c sizes.limit.d bytes.now (tables store.old spare.old waiting.old answers.old totals) (result_of result) (tables store.new spare.new waiting.new answers.new result.totals) }
{
    let mut rest = bytes;
    let mut carried: usize = 0;
    let mut sum = totals;
    let stop = loop {
        match reader::read(rest) {
            None => break None,
            Some(Err(why)) => break Some(why),
            Some(Ok(rec)) => {
                rest = &rest[Record::BYTES..];
                sum = step(store, spare, waiting, answers, sizes, rec, carried, sum);
                carried += 1;
            }
        }
    };
    Streamed {
        stop,
        carried,
        totals: sum,
    }
}

// The lengths that a stream's tables have beside the store, its bytes' limit and its totals' limit: numbers, since nothing is judged
// yet.
fn fits(
    n: usize,
    store: usize,
    spare: usize,
    waiting: usize,
    bytes: usize,
    answers: usize,
    totals: Totals,
) -> bool
    ensures { Tells result (Fitting n store spare waiting bytes answers totals) }
{
    if spare != store {
        return false;
    }
    if waiting != n {
        return false;
    }
    if Length::of(bytes).is_none() {
        return false;
    }
    if answers < 2 * (bytes / Record::BYTES) {
        return false;
    }
    if totals.accepted > Totals::MOST {
        return false;
    }
    if totals.reversals > Totals::MOST {
        return false;
    }
    true
}

// A stream that is refused as a whole: no record is carried out.
fn refused(why: Refusal, totals: Totals) -> Streamed
    ensures { Stopped why totals result }
{
    Streamed {
        stop: Some(why),
        carried: 0,
        totals,
    }
}

// A day's records on any tables: sizes, lengths and soundness are judged once.
pub fn stream(
    n: usize,
    c: usize,
    d: usize,
    store: &mut [u32],
    spare: &mut [u32],
    waiting: &mut [u32],
    bytes: &[u8],
    answers: &mut [u32],
    totals: Totals,
) -> Streamed
    ensures { StreamPromise n c d bytes.now (tables store.old spare.old waiting.old answers.old totals) (result_of result) (tables store.new spare.new waiting.new answers.new result.totals) }
{
    if !fits(
        n,
        store.len(),
        spare.len(),
        waiting.len(),
        bytes.len(),
        answers.len(),
        totals,
    ) {
        return refused(Refusal::Sizes, totals);
    }
    match judge::judge(n, c, d, store) {
        Ok(sizes) => carry_all(store, spare, waiting, answers, sizes, bytes, totals),
        Err(why) => refused(why, totals),
    }
}
