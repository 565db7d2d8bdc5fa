// Asking about a link, linking and unlinking two named runs.
ghost use Rattle.std.specs.Prelude.{◌<◌, ◌≡◌};
ghost use Rattle.meaning.specs.Calls.{ask, unlink};
ghost use Rattle.meaning.specs.Promise.{Carries, Lent, LinkCarries};
ghost use Rattle.meaning.specs.Soundness.{Sound};
ghost use Rattle.meaning.specs.Table.{NONE};
ghost use Rattle.meaning.proofs.Steps.{moved};
ghost use Rattle.meaning.proofs.Threaded.{Threaded};
ghost use Rattle.find.specs.Find.{SpotOf};

use find::Spot;
use lists::cell;
use lists::join::join;
use table::section;
use table::view::Table;
use terms::refusal::{Answer, Refusal};
use terms::run::Run;
use terms::size::{Room, Sizes};

// 1 where the two runs are linked, else 0: both lists are read.
pub fn ask(store: &[u32], sizes: Sizes, p: Run, q: Run) -> Answer
    requires { Sound sizes.room.n sizes.room.c sizes.limit.d store.now }
    ensures { Carries sizes.room.n sizes.room.c sizes.limit.d (ask p q) store.now result store.now }
{
    let table = Table {
        words: store,
        room: sizes.room,
    };
    let ends = find::both(table, p, q)?;
    match find::link_of(table, ends.first, ends.second) {
        Some(_) => Ok(1),
        None => Ok(0),
    }
}

// The cell at a spot of a place's list goes to the front of the free list.
fn free(store: &mut [u32], room: Room, spot: Spot)
    requires { Threaded room.n room.c store.old × (spot.list < room.n) × SpotOf spot room.n room.c store.old }
    ensures { store.new ≡ moved room.n room.c store.old spot.list spot.position room.n NONE }
{
    cell::shift(store, room, spot, room.n, section::NONE);
}

// The link's cell leaves the list that has it.
pub fn unlink(store: &mut [u32], sizes: Sizes, p: Run, q: Run) -> Answer
    requires { Sound sizes.room.n sizes.room.c sizes.limit.d store.old }
    ensures { Carries sizes.room.n sizes.room.c sizes.limit.d (unlink p q) store.old result store.new }
{
    let room = sizes.room;
    let table = Table { words: store, room };
    let ends = find::both(table, p, q)?;
    let Some(spot) = find::link_of(table, ends.first, ends.second) else {
        return Err(Refusal::NoLink);
    };
    free(store, room, spot);
    Ok(0)
}

// A new link leaves the first run: its cell goes to the front of that run's list. The three tables come as in `lists`.
pub fn link(
    store: &mut [u32],
    spare: &mut [u32],
    waiting: &mut [u32],
    sizes: Sizes,
    p: Run,
    q: Run,
) -> Answer
    requires { Lent sizes.room.n sizes.room.c sizes.limit.d store.old spare.old waiting.old × Sound sizes.room.n sizes.room.c sizes.limit.d store.old }
    ensures { LinkCarries sizes.room.n sizes.room.c sizes.limit.d p q store.old spare.old waiting.old result store.new spare.new waiting.new }
{
    let table = Table {
        words: store,
        room: sizes.room,
    };
    let ends = find::both(table, p, q)?;
    if find::link_of(table, ends.first, ends.second).is_some() {
        return Err(Refusal::Already);
    }
    join(store, spare, waiting, sizes, ends.first, ends.second)
}
