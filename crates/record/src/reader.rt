// Reading: what stands first in the rest of a stream.
ghost use Rattle.std.specs.Prelude.{◌+◌, ◌≤◌, length, ◌≡◌};
ghost use Rattle.record.specs.Bytes.{marked, run_at};
ghost use Rattle.record.specs.Reading.{reading_of, record_of, checked};

use crate::{Kind, Record};
use terms::refusal::Refusal;
use terms::run::Run;

// A run's line and trip number, which stand at `at`, the high byte first: document 01's layout, over the library's conversions.
#[tactic(auto, unfolding(crate::specs::Bytes::run_at))]
fn run_at(s: &[u8], at: usize) -> Run
    requires { at + 6 ≤ length s.now }
    ensures { result ≡ run_at s.now at }
{
    Run {
        line: u32::from(u16::from_be_bytes([s[at], s[at + 1]])),
        trip: u32::from_be_bytes([s[at + 2], s[at + 3], s[at + 4], s[at + 5]]),
    }
}

// Whether the two-byte mark stands first: compared whole, as document 01 names it.
#[tactic(auto, unfolding(crate::specs::Bytes::marked))]
fn is_marked(s: &[u8]) -> bool
    ensures { result ≡ marked s.now }
{
    s.starts_with(&Record::MARK)
}

// A kind that names one run leaves the second run's bytes zero: whatever else stands there is refused.
#[tactic(auto, unfolding(crate::specs::Reading::checked, terms::specs::Run::same_run))]
fn checked_record(kind: Kind, first: Run, second: Run) -> Result<Record, Refusal>
    ensures { result ≡ checked kind first second }
{
    if kind.names_one() && second != Run::default() {
        return Err(Refusal::WrongKind);
    }
    Ok(Record {
        kind,
        first,
        second,
    })
}

// The bytes are judged in the order of the refusals: too few of them, the mark, the kind and the second run.
#[tactic(auto, unfolding(crate::specs::Reading::record_of))]
fn first_record(bytes: &[u8]) -> Result<Record, Refusal>
    ensures { result ≡ record_of bytes.now }
{
    if bytes.len() < Record::BYTES {
        return Err(Refusal::CutShort);
    }
    if !is_marked(bytes) {
        return Err(Refusal::WrongMark);
    }
    let kind = Kind::try_from(bytes[Record::KIND_AT])?;
    checked_record(
        kind,
        run_at(bytes, Record::FIRST_AT),
        run_at(bytes, Record::SECOND_AT),
    )
}

// None where no byte is left, else the record that stands first or why it is none.
#[tactic(auto, unfolding(crate::specs::Reading::reading_of))]
pub fn read(rest: &[u8]) -> Option<Result<Record, Refusal>>
    ensures { result ≡ reading_of rest.now }
{
    if rest.is_empty() {
        return None;
    }
    Some(first_record(rest))
}
