// Whether a link touches a place: refusal 10 of close.
ghost use Rattle.std.specs.Prelude.{◌<◌, ◌≡◌};
ghost use Rattle.meaning.specs.Day.{day_of};
ghost use Rattle.meaning.specs.Calls.{touched};
ghost use Rattle.meaning.proofs.Threaded.{Threaded};

use table::view::Table;

// A link touches the place, in either list: the place's own list has a cell, or a cell anywhere aims at the place. A free
// cell aims at NONE, so a scan over all cells asks only the lists of places.
pub fn touched(table: Table, v: usize) -> bool
    requires { Threaded table.room.n table.room.c table.words.now × (v < table.room.n) }
    ensures { let t = table.entry in result ≡ touched (day_of t.room.n t.room.c t.words.now) v }
{
    if table.count(v) != 0 {
        return true;
    }
    (0..table.room.c).any(|i| table.target(i) == v)
}
