// A cell moves from one list to the front of another: what link, unlink and turning are made of.
ghost use Rattle.std.specs.Prelude.{◌+◌, ◌≤◌, ◌≡◌};
ghost use Rattle.meaning.specs.Table.{length_of};
ghost use Rattle.meaning.proofs.Steps.{moved};
ghost use Rattle.meaning.proofs.Threaded.{Threaded};
ghost use Rattle.lists.specs.Cell.{Shifts, Front};

use find::Spot;
use table::view::Table;
use table::{section, step};
use terms::size::Room;

// The spot of a list's first cell.
pub fn front(table: Table, u: usize) -> Spot
    requires { Threaded table.room.n table.room.c table.words.now × (u ≤ table.room.n) }
    ensures { let t = table.entry in Front result t.room.n t.room.c t.words.now u }
{
    Spot {
        list: u,
        cell: table.head(u),
        position: 0,
        hook: section::head_at(table.room, u),
    }
}

// The cell at a spot goes to the front of v's list with target t. The new length of v's list.
pub fn shift(store: &mut [u32], room: Room, spot: Spot, v: usize, t: usize) -> usize
    requires { Shifts room.n room.c store.old spot v t }
    ensures { (result ≡ length_of room.n room.c store.old v + 1) × (store.new ≡ moved room.n room.c store.old spot.list spot.position v t) }
{
    step::unhook(store, room, spot.hook, spot.list, spot.cell);
    step::hook(store, room, spot.cell, v, t)
}
