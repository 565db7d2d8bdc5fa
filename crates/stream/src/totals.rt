// Running totals: links accepted and reversals, kept by the caller.
ghost use Rattle.stream.specs.Totals.{Forward, Small};

use record::Kind;
use terms::refusal::Answer;

// Lent from C as two words in a row.
#[repr(C)]
#[derive(Clone, Copy, PartialEq, Eq, Default)]
pub struct Totals {
    pub accepted: u64,
    pub reversals: u64,
}

impl Totals {
    pub const MOST: u64 = 4611686018427387904;

    // Brought forward by what a record did: an accepted link counts, with its reversals, and nothing else that a
    // record may ask for: one arm, where a closure for each kind would be five.
    pub fn forward(self, kind: Kind, answer: Answer) -> Totals
        requires { Small self answer }
        ensures { Forward self kind answer result }
    {
        match (kind, answer) {
            (Kind::Link, Ok(reversals)) => Totals {
                accepted: self.accepted + 1,
                reversals: self.reversals + reversals,
            },
            _ => self,
        }
    }
}
