// The sizes of a store and their limits: each number stands here once. A value of these types is within its limits, and a
// constructor takes any number that fits a word of the machine. Each type has its own constructor: one takes two numbers and two take
// one, and each answers with a fact of its own, so a trait would share the name alone.
ghost use Rattle.terms.specs.Size.{store_words, stream_most, InRoom, InLimit};
ghost use Rattle.std.specs.Prelude.{◌≤◌, ◌≡◌};

// Places for runs and cells for links: what fixes the length of every table.
#[derive(Clone, Copy)]
pub struct Room {
    pub n: usize,
    pub c: usize,
    pub ghost within: { InRoom n c },
}

impl Room {
    ghost use Rattle.terms.specs.Told.{RoomTold};

    pub const PLACES_LEAST: usize = 1;

    pub const PLACES_MOST: usize = 4096;

    pub const CELLS_LEAST: usize = 1;

    pub const CELLS_MOST: usize = 16384;

    // The room of any two numbers that are within its limits.
    pub fn of(n: usize, c: usize) -> Option<Room>
        ensures { RoomTold result n c }
    {
        if !(Room::PLACES_LEAST..=Room::PLACES_MOST).contains(&n) {
            return None;
        }
        if !(Room::CELLS_LEAST..=Room::CELLS_MOST).contains(&c) {
            return None;
        }
        Some(Room { n, c })
    }

    // The words of the store; the spare has as many, and the waiting table has one for each place.
    pub fn store_words(self) -> usize
        ensures { result ≡ store_words self.n self.c }
    {
        4 * self.n + 2 + 3 * self.c
    }
}

// How long a run's list may be.
#[derive(Clone, Copy)]
pub struct Limit {
    pub d: usize,
    pub ghost within: { InLimit d },
}

impl Limit {
    ghost use Rattle.terms.specs.Told.{LimitTold};

    pub const LEAST: usize = 2;

    pub const MOST: usize = 64;

    pub fn of(d: usize) -> Option<Limit>
        ensures { LimitTold result d }
    {
        if !(Limit::LEAST..=Limit::MOST).contains(&d) {
            return None;
        }
        Some(Limit { d })
    }
}

// The sizes of a store: its room, and the limit of its lists.
#[derive(Clone, Copy)]
pub struct Sizes {
    pub room: Room,
    pub limit: Limit,
}

// How many bytes a stream may have: 65,535 records of 15.
#[derive(Clone, Copy)]
pub struct Length {
    pub bytes: usize,
    pub ghost within: { bytes ≤ stream_most },
}

impl Length {
    ghost use Rattle.terms.specs.Told.{LengthTold};

    pub const MOST: usize = 983025;

    pub fn of(bytes: usize) -> Option<Length>
        ensures { LengthTold result bytes }
    {
        if bytes > Length::MOST {
            return None;
        }
        Some(Length { bytes })
    }
}
