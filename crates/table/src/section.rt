// Where the words of each section stand, and one of them read as a number to count with. Each section has a line of its own, as in
// document 01's list: with the section as a parameter the list would be a `match`, and no caller shorter.
ghost use Rattle.std.specs.Prelude.{◌^◌, ◌≤◌, ◌<◌, length, ◌≡◌};
ghost use Rattle.meaning.specs.Table.{word, head_at, length_at, owner_at, target_at, next_at};

use terms::size::Room;

// What stands in the head, target and next words where there is no cell or place: a number and no Option, since it is a word of the
// table that the caller lends.
pub const NONE: usize = 4294967295;

pub fn word(table: &[u32], i: usize) -> usize
    requires { i < length table.now }
    ensures { (result ≡ word table.now i) × (result < 2 ^ 32) }
{
    table[i] as usize
}

// Where a list's head word stands.
pub fn head_at(room: Room, v: usize) -> usize
    requires { v ≤ room.n }
    ensures { result ≡ head_at room.n room.c v }
{
    2 * room.n + v
}

// Where a list's length word stands.
pub fn count_at(room: Room, v: usize) -> usize
    requires { v ≤ room.n }
    ensures { result ≡ length_at room.n room.c v }
{
    3 * room.n + 1 + v
}

// Where a cell's owner word stands, its target word, its next word.
pub fn owner_at(room: Room, i: usize) -> usize
    requires { i < room.c }
    ensures { result ≡ owner_at room.n room.c i }
{
    4 * room.n + 2 + i
}

pub fn target_at(room: Room, i: usize) -> usize
    requires { i < room.c }
    ensures { result ≡ target_at room.n room.c i }
{
    4 * room.n + 2 + room.c + i
}

pub fn next_at(room: Room, i: usize) -> usize
    requires { i < room.c }
    ensures { result ≡ next_at room.n room.c i }
{
    4 * room.n + 2 + 2 * room.c + i
}
