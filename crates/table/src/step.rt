// The steps that write: a place's two words, and a cell that leaves one list and goes to the front of another. The sections'
// words are read before any is written. A step takes the words and their room apart, and asks that they fit: a view that lends its
// words to be written would have to promise, step by step, that it still has the same room and lends the same table.
ghost use Rattle.std.specs.Prelude.{◌+◌, ◌^◌, ◌<◌, length, ◌≡◌};
ghost use Rattle.meaning.specs.Table.{written, length_of};
ghost use Rattle.meaning.proofs.Steps.{listed, celled, renamed, unhooked, hooked};
ghost use Rattle.table.specs.Within.{AtPlace, AtList, AtCell};
ghost use Rattle.table.specs.Stepping.{Unhooks, Hooks};

use crate::section;
use crate::view::Table;
use terms::run::Run;
use terms::size::Room;

// A place, a cell or a count, all of which are positions and so `usize`, becomes a word.
pub fn put(table: &mut [u32], i: usize, x: usize)
    requires { (i < length table.old) × (x < 2 ^ 32) }
    ensures { table.new ≡ written table.old i x }
{
    table[i] = x as u32;
}

// The run at a place.
pub fn rename(store: &mut [u32], room: Room, v: usize, run: Run)
    requires { AtPlace room.n room.c store.old v }
    ensures { store.new ≡ renamed room.n room.c store.old v run.line run.trip }
{
    store[v] = run.line;
    store[room.n + v] = run.trip;
}

// A list's two words.
fn set_list(store: &mut [u32], room: Room, v: usize, first: usize, many: usize)
    requires { AtList room.n room.c store.old v × (first < 2 ^ 32) × (many < 2 ^ 32) }
    ensures { store.new ≡ listed room.n room.c store.old v first many }
{
    put(store, section::head_at(room, v), first);
    put(store, section::count_at(room, v), many);
}

// A cell's three words.
fn set_cell(store: &mut [u32], room: Room, i: usize, owner: usize, target: usize, next: usize)
    requires { AtCell room.n room.c store.old i × (owner < 2 ^ 32) × (target < 2 ^ 32) × (next < 2 ^ 32) }
    ensures { store.new ≡ celled room.n room.c store.old i owner target next }
{
    put(store, section::owner_at(room, i), owner);
    put(store, section::target_at(room, i), target);
    put(store, section::next_at(room, i), next);
}

// Cell i leaves the list of v; the word that names it stands at `at`.
pub fn unhook(store: &mut [u32], room: Room, at: usize, v: usize, i: usize)
    requires { Unhooks room.n room.c store.old at v i }
    ensures { store.new ≡ unhooked room.n room.c store.old at v i }
{
    let table = Table { words: store, room };
    let rest = table.next(i);
    let many = table.count(v) - 1;
    put(store, at, rest);
    put(store, section::count_at(room, v), many);
}

// Cell i goes to the front of the list of v with target t. The list's new length.
pub fn hook(store: &mut [u32], room: Room, i: usize, v: usize, t: usize) -> usize
    requires { Hooks room.n room.c store.old i v t }
    ensures { (result ≡ length_of room.n room.c store.old v + 1) × (store.new ≡ hooked room.n room.c store.old i v t) }
{
    let table = Table { words: store, room };
    let rest = table.head(v);
    let many = table.count(v) + 1;
    set_cell(store, room, i, v, t, rest);
    set_list(store, room, v, i, many);
    many
}
