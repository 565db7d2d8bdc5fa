// The table with no run and no link, written section by section, each word once. Words and room come apart, as in `step`.
ghost use Rattle.std.specs.Prelude.{◌+◌, ◌^◌, ◌≤◌, ◌<◌, length, ◌≡◌};
ghost use Rattle.meaning.specs.Day.{empty_table};
ghost use Rattle.table.specs.Within.{Within};
ghost use Rattle.table.specs.Writing.{Writes, PlacesEmptied, CellsEmptied};

use crate::{section, step};
use terms::size::Room;

// As many words from the position `from` on become x.
fn fill(table: &mut [u32], from: usize, many: usize, x: usize)
    requires { (from + many ≤ length table.old) × (x < 2 ^ 32) }
    ensures { Writes from many (λ _. x) table.old table.new }
{
    table[from..from + many].fill(x as u32);
}

// As many words from the position `from` on become 1, 2, ..: each cell's next is the cell behind it.
fn count_up(table: &mut [u32], from: usize, many: usize)
    requires { (from + many ≤ length table.old) × (many < 2 ^ 32) }
    ensures { Writes from many (λ j. j + 1) table.old table.new }
{
    for (i, word) in table[from..from + many].iter_mut().enumerate() {
        *word = (i + 1) as u32;
    }
}

// Lines and numbers, heads, lengths. The free list's head and length stand behind those of the places, and it has all cells.
fn places(store: &mut [u32], room: Room)
    requires { Within room.n room.c store.old }
    ensures { PlacesEmptied room.n room.c store.old store.new }
{
    fill(store, 0, 2 * room.n, 0);
    fill(store, section::head_at(room, 0), room.n, section::NONE);
    step::put(store, section::head_at(room, room.n), 0);
    fill(store, section::count_at(room, 0), room.n, 0);
    step::put(store, section::count_at(room, room.n), room.c);
}

// Owners, targets, nexts.
fn cells(store: &mut [u32], room: Room)
    requires { Within room.n room.c store.old }
    ensures { CellsEmptied room.n room.c store.old store.new }
{
    fill(store, section::owner_at(room, 0), room.c, room.n);
    fill(store, section::target_at(room, 0), room.c, section::NONE);
    count_up(store, section::next_at(room, 0), room.c - 1);
    step::put(store, section::next_at(room, room.c - 1), section::NONE);
}

pub fn empty(store: &mut [u32], room: Room)
    requires { Within room.n room.c store.old }
    ensures { store.new ≡ empty_table room.n room.c }
{
    places(store, room);
    cells(store, room);
}
