// Turning lists over: the place last put to wait is taken, and the cells of its list go over to their targets, front to back. The
// places that wait are the first `top` words of the waiting table, which is lent, and of which document 01 says what it holds after.
ghost use Rattle.std.specs.Prelude.{◌+◌, ◌<◌};
ghost use Rattle.meaning.specs.Table.{length_of};
ghost use Rattle.lists.specs.Turning.{Walking, Handed, Begins, Ends};

use crate::cell;
use table::view::Table;
use table::{section, step};
use terms::refusal::Refusal;
use terms::size::Room;

// The first cell of the list of w goes to the front of its target's list with target w; the target waits if its length becomes
// d + 1. The new number of waiting places.
fn hand(store: &mut [u32], waiting: &mut [u32], room: Room, d: usize, w: usize, top: usize) -> usize
    requires { Walking room.n room.c d w store.old waiting.old top × (0 < length_of room.n room.c store.old w) }
    ensures { Handed room.n room.c d w store.old waiting.old top store.new waiting.new result }
{
    let table = Table { words: store, room };
    let spot = cell::front(table, w);
    let x = table.target(spot.cell);
    let many = cell::shift(store, room, spot, x, w);
    if many == d + 1 {
        step::put(waiting, top, x);
        return top + 1;
    }
    top
}

// Turning, with the place a alone waiting: at most m lists are turned. It ends settled, with the number of reversals, or too dense,
// where a place still waits then. The walk over a turned list takes its first cell each time, so the list is empty where it ends.
// Both loops are left by break, the inner one by its label: the form that document 01 names (docs/DECISIONS.md).
pub fn turning(
    store: &mut [u32],
    waiting: &mut [u32],
    room: Room,
    d: usize,
    m: usize,
    a: usize,
) -> Result<usize, Refusal>
    requires { Begins room.n room.c d m a store.old waiting.old }
    ensures { Ends result room.n room.c d m a store.old store.new }
{
    step::put(waiting, 0, a);
    let mut top: usize = 1;
    let mut turned: usize = 0;
    let mut reversals: usize = 0;
    loop {
        if top == 0 {
            break Ok(reversals);
        }
        if turned == m {
            break Err(Refusal::TooDense);
        }
        top -= 1;
        let w = section::word(waiting, top);
        let table = Table { words: store, room };
        let mut left = table.count(w);
        reversals += left;
        'walk: loop {
            if left == 0 {
                break 'walk;
            }
            top = hand(store, waiting, room, d, w, top);
            left -= 1;
        }
        turned += 1;
    }
}
