// Linking two places: the first free cell goes to the front of one's list, and where that becomes too long, lists are turned over.
ghost use Rattle.std.specs.Prelude.{◌<◌, ◌≡◌};
ghost use Rattle.meaning.specs.Table.{length_of};
ghost use Rattle.meaning.proofs.Steps.{moved};
ghost use Rattle.meaning.proofs.Threaded.{Threaded};
ghost use Rattle.lists.specs.Join.{Settling, Settles, Joins, Joined};

use crate::cell;
use crate::turning::turning;
use table::view::Table;
use table::whole;
use terms::refusal::{Answer, Refusal};
use terms::size::{Room, Sizes};

// The first free cell goes to the front of u's list with target v.
fn add(store: &mut [u32], room: Room, u: usize, v: usize)
    requires { Threaded room.n room.c store.old × (u < room.n) × (v < room.n) × (0 < length_of room.n room.c store.old room.n) }
    ensures { store.new ≡ moved room.n room.c store.old room.n 0 u v }
{
    let table = Table { words: store, room };
    let spot = cell::front(table, room.n);
    cell::shift(store, room, spot, u, v);
}

// Turning with u alone waiting; too dense, and the store is put back as the spare has it. The waiting table is left at 0.
fn settle(
    store: &mut [u32],
    spare: &[u32],
    waiting: &mut [u32],
    sizes: Sizes,
    u: usize,
) -> Result<usize, Refusal>
    requires { Settling sizes.room.n sizes.room.c sizes.limit.d u store.old spare.now waiting.old }
    ensures { Settles result sizes.room.n sizes.room.c sizes.limit.d u store.old spare.now store.new waiting.new }
{
    let table = Table {
        words: store,
        room: sizes.room,
    };
    let links = find::standing(table);
    let ended = turning(store, waiting, sizes.room, sizes.limit.d, links, u);
    waiting.fill(0);
    if ended.is_err() {
        whole::copy(spare, store);
    }
    ended
}

// The link of the open places u and v, which are two and not linked.
pub fn join(
    store: &mut [u32],
    spare: &mut [u32],
    waiting: &mut [u32],
    sizes: Sizes,
    u: usize,
    v: usize,
) -> Answer
    requires { Joins sizes.room.n sizes.room.c sizes.limit.d u v store.old spare.old waiting.old }
    ensures { Joined sizes.room.n sizes.room.c sizes.limit.d u v store.old spare.old waiting.old result store.new spare.new waiting.new }
{
    let room = sizes.room;
    let table = Table { words: store, room };
    if table.count(room.n) == 0 {
        return Err(Refusal::NoRoom);
    }
    if table.count(u) < sizes.limit.d {
        add(store, room, u, v);
        return Ok(0);
    }
    whole::copy(store, spare);
    add(store, room, u, v);
    let reversals = settle(store, spare, waiting, sizes, u)?;
    Ok(reversals as u64)
}
