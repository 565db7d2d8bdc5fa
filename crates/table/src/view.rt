// A lent table as it is read: its words and the room they are laid out for, which are as many as the room asks for. Its cells stay
// indices in sections side by side, since the caller lends them so. Each section has a method of its own: `table.head(v)` says what is
// read, and a section as a parameter would say no more in more words. That a place or a cell is within the room is a clause: a type
// for it would carry the room along, and be made anew of each word that is read.
ghost use Rattle.std.specs.Prelude.{length, ◌≡◌};
ghost use Rattle.terms.specs.Size.{store_words};

use crate::section;
use terms::run::Run;
use terms::size::Room;

#[derive(Clone, Copy)]
pub struct Table<'a> {
    pub words: &'a [u32],
    pub room: Room,
    pub ghost long: { length words.now ≡ store_words room.n room.c },
}

impl Table<'_> {
    ghost use Rattle.std.specs.Prelude.{◌^◌, ◌≤◌, ◌<◌, ◌≡◌};
    ghost use Rattle.meaning.specs.Table.{line_of, number_of, head_of, length_of, owner_of, target_of, next_of};
    ghost use Rattle.table.specs.Within.{named};

    // The run at a place.
    pub fn run(self, v: usize) -> Run
        requires { v < self.room.n }
        ensures { let t = self.entry in result ≡ named t.room.n t.room.c t.words.now v }
    {
        Run {
            line: self.words[v],
            trip: self.words[self.room.n + v],
        }
    }

    pub fn line(self, v: usize) -> usize
        requires { v < self.room.n }
        ensures { let t = self.entry in (result ≡ line_of t.room.n t.room.c t.words.now v) × (result < 2 ^ 32) }
    {
        section::word(self.words, v)
    }

    pub fn number(self, v: usize) -> usize
        requires { v < self.room.n }
        ensures { let t = self.entry in (result ≡ number_of t.room.n t.room.c t.words.now v) × (result < 2 ^ 32) }
    {
        section::word(self.words, self.room.n + v)
    }

    pub fn head(self, v: usize) -> usize
        requires { v ≤ self.room.n }
        ensures { let t = self.entry in (result ≡ head_of t.room.n t.room.c t.words.now v) × (result < 2 ^ 32) }
    {
        section::word(self.words, section::head_at(self.room, v))
    }

    pub fn count(self, v: usize) -> usize
        requires { v ≤ self.room.n }
        ensures { let t = self.entry in (result ≡ length_of t.room.n t.room.c t.words.now v) × (result < 2 ^ 32) }
    {
        section::word(self.words, section::count_at(self.room, v))
    }

    pub fn owner(self, i: usize) -> usize
        requires { i < self.room.c }
        ensures { let t = self.entry in (result ≡ owner_of t.room.n t.room.c t.words.now i) × (result < 2 ^ 32) }
    {
        section::word(self.words, section::owner_at(self.room, i))
    }

    pub fn target(self, i: usize) -> usize
        requires { i < self.room.c }
        ensures { let t = self.entry in (result ≡ target_of t.room.n t.room.c t.words.now i) × (result < 2 ^ 32) }
    {
        section::word(self.words, section::target_at(self.room, i))
    }

    pub fn next(self, i: usize) -> usize
        requires { i < self.room.c }
        ensures { let t = self.entry in (result ≡ next_of t.room.n t.room.c t.words.now i) × (result < 2 ^ 32) }
    {
        section::word(self.words, section::next_at(self.room, i))
    }
}
