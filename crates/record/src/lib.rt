// Day records: fifteen bytes and what they say. The reader is handed the rest of the stream and answers with what stands
// first in it. It knows no store: what a record's call does is said elsewhere.
#![tactic(auto)]

pub mod reader;
pub mod writer;

ghost use Rattle.std.specs.Prelude.{◌≡◌};
ghost use Rattle.record.specs.Bytes.{kind_byte, kind_of};
ghost use Rattle.record.specs.Reading.{names_one};

use terms::refusal::Refusal;
use terms::run::Run;

// What a record asks for.
#[derive(Clone, Copy, PartialEq, Eq)]
pub enum Kind {
    Open,
    Close,
    Link,
    Unlink,
    Ask,
}

impl Kind {
    // The byte of each kind, which stands here once: the patterns of `try_from` and the arms of `from` take it.
    pub const OPEN: u8 = 1;

    pub const CLOSE: u8 = 2;

    pub const LINK: u8 = 3;

    pub const UNLINK: u8 = 4;

    pub const ASK: u8 = 5;

    // Whether a record of this kind names one run, so that its second run is zero.
    pub fn names_one(self) -> bool
        ensures { result ≡ names_one self }
    {
        matches!(self, Kind::Open | Kind::Close)
    }
}

impl From<Kind> for u8 {
    ghost from_gives = { λ kind byte. byte ≡ kind_byte kind };

    fn from(kind: Kind) -> u8 {
        match kind {
            Kind::Open => Kind::OPEN,
            Kind::Close => Kind::CLOSE,
            Kind::Link => Kind::LINK,
            Kind::Unlink => Kind::UNLINK,
            Kind::Ask => Kind::ASK,
        }
    }
}

// A byte that is no kind's gives the refusal of the record that it stands in.
impl TryFrom<u8> for Kind {
    type Error = Refusal;

    ghost try_from_gives = { λ byte answer. answer ≡ kind_of byte };

    #[tactic(auto, unfolding(crate::specs::Bytes::kind_of))]
    fn try_from(byte: u8) -> Result<Kind, Refusal> {
        match byte {
            Kind::OPEN => Ok(Kind::Open),
            Kind::CLOSE => Ok(Kind::Close),
            Kind::LINK => Ok(Kind::Link),
            Kind::UNLINK => Ok(Kind::Unlink),
            Kind::ASK => Ok(Kind::Ask),
            _ => Err(Refusal::WrongKind),
        }
    }
}

// Where the kind names one run, the second is line 0, trip 0: two runs always, as the bytes have them.
#[derive(Clone, Copy, PartialEq, Eq)]
pub struct Record {
    pub kind: Kind,
    pub first: Run,
    pub second: Run,
}

impl Record {
    // The bytes 0x52 0x4E: the reader compares them, the writer puts them first.
    pub const MARK: [u8; 2] = *b"RN";

    // The mark (2 bytes), the kind (1), line and trip number (2 and 4) of each run.
    pub const BYTES: usize = 15;

    // Where the kind and each run begin.
    pub const KIND_AT: usize = 2;

    pub const FIRST_AT: usize = 3;

    pub const SECOND_AT: usize = 9;
}
