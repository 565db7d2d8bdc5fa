// One record carried out on a sound store.
ghost use Rattle.std.specs.Prelude.{◌+◌, ◌*◌, ◌^◌, ◌<◌, length, ◌≡◌};
ghost use Rattle.meaning.specs.Promise.{Lent};
ghost use Rattle.meaning.specs.Soundness.{Sound};
ghost use Rattle.meaning.specs.Stream.{call_of, answered};
ghost use Rattle.terms.specs.Refusal.{value_of};
ghost use Rattle.stream.specs.Carry.{Carried, StepOk, Stepped};

use crate::totals::Totals;
use record::{Kind, Record};
use store::{link, run};
use terms::refusal::{Answer, refusal_of, value_of};
use terms::size::Sizes;

// The single call that the record asks for: the kinds are five, and each has its own tables and arguments, so closures for them would
// be no shorter than the arms. The tables come as in `lists`.
pub fn carry(
    store: &mut [u32],
    spare: &mut [u32],
    waiting: &mut [u32],
    sizes: Sizes,
    rec: Record,
) -> Answer
    requires { Lent sizes.room.n sizes.room.c sizes.limit.d store.old spare.old waiting.old × Sound sizes.room.n sizes.room.c sizes.limit.d store.old }
    ensures { Carried sizes.room.n sizes.room.c sizes.limit.d (call_of rec) store.old spare.old waiting.old result store.new spare.new waiting.new }
{
    match rec.kind {
        Kind::Open => run::open(store, sizes, rec.first),
        Kind::Close => run::close(store, sizes, rec.first),
        Kind::Link => link::link(store, spare, waiting, sizes, rec.first, rec.second),
        Kind::Unlink => link::unlink(store, sizes, rec.first, rec.second),
        Kind::Ask => link::ask(store, sizes, rec.first, rec.second),
    }
}

// The record's two answer words, refusal and number, at its position in the answer table.
fn put_answer(answers: &mut [u32], position: usize, answer: Answer)
    requires { (2 * position + 1 < length answers.old) × (value_of answer < 2 ^ 32) }
    ensures { answers.new ≡ answered answers.old position answer }
{
    answers[2 * position] = refusal_of(answer) as u32;
    answers[2 * position + 1] = value_of(answer) as u32;
}

// One record: its call, its answer words and the totals, by value in and by value out.
pub fn step(
    store: &mut [u32],
    spare: &mut [u32],
    waiting: &mut [u32],
    answers: &mut [u32],
    sizes: Sizes,
    rec: Record,
    position: usize,
    totals: Totals,
) -> Totals
    requires { StepOk sizes.room.n sizes.room.c sizes.limit.d store.old spare.old waiting.old answers.old position totals }
    ensures { Stepped sizes.room.n sizes.room.c sizes.limit.d rec store.old spare.old waiting.old answers.old position totals store.new spare.new waiting.new answers.new result }
{
    let answer = carry(store, spare, waiting, sizes, rec);
    put_answer(answers, position, answer);
    totals.forward(rec.kind, answer)
}
