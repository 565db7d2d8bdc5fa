// Opening and closing a run.
ghost use Rattle.meaning.specs.Calls.{open_run, close_run};
ghost use Rattle.meaning.specs.Promise.{Carries};
ghost use Rattle.meaning.specs.Soundness.{Sound};

use find::touch;
use table::step;
use table::view::Table;
use terms::refusal::{Answer, Refusal};
use terms::run::Run;
use terms::size::Sizes;

// The run takes the lowest free place, whose number is the answer.
pub fn open(store: &mut [u32], sizes: Sizes, run: Run) -> Answer
    requires { Sound sizes.room.n sizes.room.c sizes.limit.d store.old }
    ensures { Carries sizes.room.n sizes.room.c sizes.limit.d (open_run run) store.old result store.new }
{
    let room = sizes.room;
    let table = Table { words: store, room };
    if run.is_bad() {
        return Err(Refusal::BadName);
    }
    if find::place(table, run).is_some() {
        return Err(Refusal::Already);
    }
    let v = find::free_place(table).ok_or(Refusal::NoRoom)?;
    step::rename(store, room, v, run);
    Ok(v as u64)
}

// The run's place becomes free, if no link touches it.
pub fn close(store: &mut [u32], sizes: Sizes, run: Run) -> Answer
    requires { Sound sizes.room.n sizes.room.c sizes.limit.d store.old }
    ensures { Carries sizes.room.n sizes.room.c sizes.limit.d (close_run run) store.old result store.new }
{
    let room = sizes.room;
    let table = Table { words: store, room };
    if run.is_bad() {
        return Err(Refusal::BadName);
    }
    let v = find::place(table, run).ok_or(Refusal::NotOpen)?;
    if touch::touched(table, v) {
        return Err(Refusal::Touched);
    }
    step::rename(store, room, v, Run::default());
    Ok(0)
}
