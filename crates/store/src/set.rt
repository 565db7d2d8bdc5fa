// Reading of a set: the whole part of (links with both ends in the set) / (size - 1). The set's places are marked, and only
// their own lists are read, since a link with both ends in the set stands in the list of one of them.
ghost use Rattle.std.specs.Prelude.{◌*◌, ◌≤◌, ◌<◌, length, replicate, sum_by, true, ◌≡◌};
ghost use Rattle.meaning.specs.Soundness.{Aimed, Sound};
ghost use Rattle.meaning.specs.Day.{day_of, cells_of};
ghost use Rattle.meaning.specs.Calls.{rising, open_place, all_open, reading};
ghost use Rattle.meaning.specs.Promise.{Carries};
ghost use Rattle.meaning.proofs.Threaded.{Threaded};
ghost use Rattle.store.specs.Set.{AllBelow, Marks, marked};

use table::view::Table;
use terms::refusal::{Answer, Refusal};
use terms::size::{Room, Sizes};

// The place numbers rise strictly.
fn rising(places: &[u32]) -> bool
    ensures { result ≡ rising places.now }
{
    places.windows(2).all(|two| two[0] < two[1])
}

// A place number of n or above isn't open.
#[tactic(auto, using(crate::proofs::Setting::open_by_line))]
fn is_open(table: Table, v: usize) -> bool
    ensures { let t = table.entry in result ≡ open_place (day_of t.room.n t.room.c t.words.now) v }
{
    if v >= table.room.n {
        return false;
    }
    table.line(v) != 0
}

// Every place of the set is open.
fn all_open(table: Table, places: &[u32]) -> bool
    ensures { let t = table.entry in result ≡ all_open (day_of t.room.n t.room.c t.words.now) places.now }
{
    places.iter().all(|v| is_open(table, *v as usize))
}

// Each place of the set gets its mark. No place stands in a rising set twice, so a mark is 1 or 0.
fn mark(marks: &mut [u8], places: &[u32])
    requires { (marks.old ≡ replicate (length marks.old) 0) × (rising places.now ≡ true) × AllBelow (length marks.old) places.now }
    ensures { Marks (length marks.old) places.now marks.new }
{
    for v in places {
        marks[*v as usize] = 1;
    }
}

// The links in the list of v whose other end is marked. A mark is a byte, so no list of c cells adds up to more than 255c. The walk
// is two lines of a `for`: an iterator for it alone would be longer.
fn inside_list(table: Table, v: usize, marks: &[u8]) -> usize
    requires { Threaded table.room.n table.room.c table.words.now × Aimed table.room.n table.room.c table.words.now × (v < table.room.n) × (table.room.n ≤ length marks.now) }
    ensures { let t = table.entry in (result ≡ marked marks.now (cells_of t.room.n t.room.c t.words.now v)) × (result ≤ 255 * t.room.c) }
{
    let mut cell = table.head(v);
    let mut sum: usize = 0;
    for _ in 0..table.count(v) {
        sum += marks[table.target(cell)] as usize;
        cell = table.next(cell);
    }
    sum
}

// The links in the lists of the set's places whose other end is marked.
fn inside(table: Table, places: &[u32], marks: &[u8]) -> usize
    requires { Threaded table.room.n table.room.c table.words.now × Aimed table.room.n table.room.c table.words.now × AllBelow table.room.n places.now × (length places.now ≤ table.room.n) × (table.room.n ≤ length marks.now) }
    ensures { let t = table.entry in result ≡ sum_by (λ p. marked marks.now (cells_of t.room.n t.room.c t.words.now p)) places.now }
{
    let mut sum: usize = 0;
    for v in places {
        sum += inside_list(table, *v as usize, marks);
    }
    sum
}

// Refusal 14 comes before 5: only of a set of two or more, strictly rising, is it asked whether its places are open.
pub fn reading(store: &[u32], sizes: Sizes, places: &[u32]) -> Answer
    requires { Sound sizes.room.n sizes.room.c sizes.limit.d store.now }
    ensures { Carries sizes.room.n sizes.room.c sizes.limit.d (reading places.now) store.now result store.now }
{
    let table = Table {
        words: store,
        room: sizes.room,
    };
    if places.len() < 2 || !rising(places) {
        return Err(Refusal::BadSet);
    }
    if !all_open(table, places) {
        return Err(Refusal::NotOpen);
    }
    // Fixed memory: the library has no heap.
    let mut marks = [0u8; Room::PLACES_MOST];
    mark(&mut marks, places);
    let links = inside(table, places, &marks);
    Ok((links / (places.len() - 1)) as u64)
}
