// Why a call is refused, and what a call answers.
ghost use Rattle.terms.specs.Refusal.{number_of, refusal_of, value_of};
ghost use Rattle.std.specs.Prelude.{◌≡◌};

#[derive(Clone, Copy, PartialEq, Eq)]
pub enum Refusal {
    // A size outside its limits, a table of wrong length, a stream too long, a total too large.
    Sizes = 1,
    // The store is not sound.
    Unsound = 2,
    // A named run has line 0 or a line above the most.
    BadName = 3,
    // Both names are the same run.
    SameRun = 4,
    // A named run, or a place in a set, is not open.
    NotOpen = 5,
    // Open: already open. Link: already linked.
    Already = 6,
    // Unlink: no such link.
    NoLink = 7,
    // Open: no free place. Link: no free cell.
    NoRoom = 8,
    // Link: a place still waits after as many lists were turned as there are links.
    TooDense = 9,
    // Close: a link touches the run.
    Touched = 10,
    // A record without its mark.
    WrongMark = 11,
    // A record of an unknown kind, or with a second run where there is none.
    WrongKind = 12,
    // A record cut short by the end of the stream.
    CutShort = 13,
    // A set of fewer than two places, or not strictly rising.
    BadSet = 14,
}

impl From<Refusal> for u64 {
    ghost from_gives = { λ why number. number ≡ number_of why };

    fn from(why: Refusal) -> u64 {
        why as u64
    }
}

// What a single call answers: its number where it is done, else why it is refused.
pub type Answer = Result<u64, Refusal>;

// The refusal number, 0 where the call is done: document 01's first number of an answer, a function since an alias has no methods.
pub fn refusal_of(answer: Answer) -> u64
    ensures { result ≡ refusal_of answer }
{
    match answer {
        Ok(_) => 0,
        Err(why) => u64::from(why),
    }
}

// The number, 0 where the call is refused: its second.
pub fn value_of(answer: Answer) -> u64
    ensures { result ≡ value_of answer }
{
    answer.unwrap_or(0)
}
