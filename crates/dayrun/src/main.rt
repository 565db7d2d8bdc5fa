// The program dayrun: a day's records from standard input, carried out on an empty store of 256 places, 1,024 cells and limit 4.
// It prints each record's outcome and how the day ended. It only reads, prints and calls: refusals, numbers and totals come from
// the library, position and kind are those of the record.
#![tactic(auto)]

ghost use Rattle.std.specs.Prelude.{◌+◌, ◌*◌, ◌≤◌, ◌<◌, length, take, ◌≡◌, IfOk};
ghost use Rattle.std.specs.Io.{ReadsAtMost};
ghost use Rattle.std.specs.Io.KnownBytes.{Consumes, IsAtEnd};
ghost use Rattle.dayrun.specs.Line.{bytes_most, answer_words, printed, DayEnds};
ghost use Rattle.record.specs.Bytes.{record_bytes, kind_at};

use record::Record;
use std::io::Read;
use std::{fmt, io};
use stream::totals::Totals;
use table::view::Table;
use terms::refusal::Refusal;
use terms::size::Room;

const PLACES: usize = 256;

const CELLS: usize = 1024;

const LIMIT: usize = 4;

const BYTES: usize = 12000;

// The store's words, as a constant since an array's length can't be a call (the stream's contract holds it to its own), and two words
// for each record that the bytes have room for.
const STORE_WORDS: usize = 4 * PLACES + 2 + 3 * CELLS;

const ANSWER_WORDS: usize = 2 * (BYTES / Record::BYTES);

// What is printed of a record: numbers, as `printed` has them from the bytes and the answer words.
#[derive(Clone, Copy)]
struct Line {
    position: u64,
    kind: u64,
    refusal: u64,
    number: u64,
}

// What is printed of the day's end: the stop as the number that `DayEnds` says it is.
#[derive(Clone, Copy)]
struct Ran {
    refusal: u64,
    carried: usize,
    reversals: u64,
    links: u64,
}

impl fmt::Display for Line {
    fn fmt<W: fmt::Write>(&self, f: &mut fmt::Formatter<W>) -> fmt::Result {
        write!(
            f,
            "{} {} {} {}",
            self.position, self.kind, self.refusal, self.number
        )
    }
}

impl fmt::Display for Ran {
    fn fmt<W: fmt::Write>(&self, f: &mut fmt::Formatter<W>) -> fmt::Result {
        write!(
            f,
            "end {} {} {} {}",
            self.refusal, self.carried, self.reversals, self.links
        )
    }
}

fn record_line(bytes: &[u8], answers: &[u32], i: usize) -> Line
    requires { (record_bytes * i + kind_at < length bytes.now) × (2 * i + 1 < length answers.now) }
    ensures { result ≡ printed bytes.now answers.now i }
{
    let kind = bytes[Record::BYTES * i + Record::KIND_AT];
    let refusal = answers[2 * i];
    let number = answers[2 * i + 1];
    Line {
        position: i as u64 + 1,
        kind: kind as u64,
        refusal: refusal as u64,
        number: number as u64,
    }
}

// The day on an empty store. Each record's refusal and number go to answers.
fn run_day(bytes: &[u8], answers: &mut [u32]) -> Ran
    requires { (length bytes.now ≤ bytes_most) × (length answers.old ≡ answer_words) }
    ensures { DayEnds bytes.now answers.old result answers.new }
{
    // Fixed memory: the program has no heap.
    let mut store = [0u32; STORE_WORDS];
    let mut spare = [0u32; STORE_WORDS];
    let mut waiting = [0u32; PLACES];
    // Never refused: the sizes are within their limits and the table has their length.
    let _ = calls::empty(PLACES, CELLS, &mut store);
    let done = stream::stream(
        PLACES,
        CELLS,
        LIMIT,
        &mut store,
        &mut spare,
        &mut waiting,
        bytes,
        answers,
        Totals::default(),
    );
    let room = Room {
        n: PLACES,
        c: CELLS,
    };
    let table = Table {
        words: &store,
        room,
    };
    Ran {
        refusal: done.refusal(),
        carried: done.carried,
        reversals: done.totals.reversals,
        links: find::standing(table) as u64,
    }
}

// A line for each record carried out, by its position, as `printed` has it.
fn print_records(rt: &impl Print, bytes: &[u8], answers: &[u32], carried: usize) -> io::Result<()>
    requires { (record_bytes * carried ≤ length bytes.now) × (2 * carried ≤ length answers.now) }
{
    for i in 0..carried {
        let line = record_line(bytes, answers, i);
        println!(rt; "{line}")?;
    }
    Ok(())
}

fn day(rt: &impl Print, bytes: &[u8]) -> io::Result<()>
    requires { length bytes.now ≤ bytes_most }
{
    // Fixed memory, as in `run_day`.
    let mut answers = [0u32; ANSWER_WORDS];
    let ran = run_day(bytes, &mut answers);
    print_records(rt, bytes, &answers, ran.carried)?;
    println!(rt; "{ran}")
}

// Reads until the bytes are full or the input ends, and says how many were read: they are the next of the input. A read gives as many
// bytes as it likes, so no range counts them.
fn read_full<R: Read>(from: &mut R, bytes: &mut [u8]) -> io::Result<usize>
    ensures within { ReadsAtMost result bytes.new }
    ensures bytes { IfOk result (λ n. Consumes (R.remaining from.old) (R.remaining from.new) (take n bytes.new)) }
    ensures end { IfOk result (λ n. n < length bytes.new → IsAtEnd (R.remaining from.new)) }
{
    let mut done: usize = 0;
    while done < bytes.len() {
        let got = from.read(&mut bytes[done..])?;
        if got == 0 {
            break;
        }
        done += got;
    }
    Ok(done)
}

fn main(rt: HostRuntime) -> io::Result<()> {
    // Fixed memory: one byte more than a day may have.
    let mut bytes = [0u8; BYTES + 1];
    let got = read_full(&mut rt.stdin(), &mut bytes)?;
    if got > BYTES {
        let ran = Ran {
            refusal: u64::from(Refusal::Sizes),
            carried: 0,
            reversals: 0,
            links: 0,
        };
        return println!(rt; "{ran}");
    }
    day(&rt, &bytes[..got])
}
