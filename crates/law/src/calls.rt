ghost use Rattle.law.specs.Orders.{Obeys};
ghost use Rattle.law.specs.Scenes.{Calls, scene};
ghost use Rattle.law.specs.declared.order.Order.TheVariants as O;
ghost use Rattle.transfer.specs.Contents.{writing};

use crate::order::{Answer, Order};
use crate::purse::{lay, take, take_as};
use drafts::step::Step;
use engine::engine::Engine;
use engine::refusal::Refusal;
use engine::ticket::Ticket;
use model::store::Store;

// Engine and purse are two parameters in each: a struct around both would be taken apart again in each, and in `run`.

// Opens a change, if the place is free for its ticket.
fn open<S: Store>(
    engine: &mut Engine<S>,
    purse: &mut [Option<Ticket>],
    i: usize,
) -> Result<Answer, Refusal>
    ensures { Calls S.Reading S.Store.own (O.Open i) engine.old purse.old result engine.new purse.new }
{
    let Some(None) = purse.get(i) else {
        return Ok(Answer::NoCall);
    };
    let ticket = engine.open()?;
    lay(purse, i, Ticket::Open(ticket));
    Ok(Answer::Opened)
}

// Edits the draft with the open ticket, which stays in its place.
fn step<S: Store>(
    engine: &mut Engine<S>,
    purse: &[Option<Ticket>],
    i: usize,
    step: Step,
) -> Result<Answer, Refusal>
    ensures { Calls S.Reading S.Store.own (O.Step i step.entry) engine.old purse.now result engine.new purse.now }
{
    let Some(Some(Ticket::Open(ticket))) = purse.get(i) else {
        return Ok(Answer::NoCall);
    };
    engine.step(ticket, step)?;
    Ok(Answer::Stepped)
}

// Check, reopening and release are three functions: one that takes the call as a closure would state in its own contract what they state in theirs.

// Checks the change. The place holds a cleared ticket then, or the open one again.
#[tactic(auto, using(crate::proofs::Places::laid))]
fn check<S: Store>(
    engine: &mut Engine<S>,
    purse: &mut [Option<Ticket>],
    i: usize,
) -> Result<Answer, Refusal>
    ensures { Calls S.Reading S.Store.own (O.Check i) engine.old purse.old result engine.new purse.new }
{
    let Some(ticket) = take_as(purse, i) else {
        return Ok(Answer::NoCall);
    };
    match engine.check(ticket) {
        Ok(cleared) => {
            lay(purse, i, Ticket::Cleared(cleared));
            Ok(Answer::Cleared)
        }
        Err((refusal, back)) => {
            lay(purse, i, Ticket::Open(back));
            Err(refusal)
        }
    }
}

// Reopens the change. The place holds an open ticket then, or the cleared one again.
#[tactic(auto, using(crate::proofs::Places::laid))]
fn reopen<S: Store>(
    engine: &mut Engine<S>,
    purse: &mut [Option<Ticket>],
    i: usize,
) -> Result<Answer, Refusal>
    ensures { Calls S.Reading S.Store.own (O.Reopen i) engine.old purse.old result engine.new purse.new }
{
    let Some(ticket) = take_as(purse, i) else {
        return Ok(Answer::NoCall);
    };
    match engine.reopen(ticket) {
        Ok(opened) => {
            lay(purse, i, Ticket::Open(opened));
            Ok(Answer::Reopened)
        }
        Err((refusal, back)) => {
            lay(purse, i, Ticket::Cleared(back));
            Err(refusal)
        }
    }
}

// Releases the change. The place is empty then, or holds the cleared ticket again.
#[tactic(auto, using(crate::proofs::Places::laid))]
fn release<S: Store>(
    engine: &mut Engine<S>,
    purse: &mut [Option<Ticket>],
    i: usize,
) -> Result<Answer, Refusal>
    ensures { Calls S.Reading S.Store.own (O.Release i) engine.old purse.old result engine.new purse.new }
{
    let Some(ticket) = take_as(purse, i) else {
        return Ok(Answer::NoCall);
    };
    match engine.release(ticket) {
        Ok(()) => Ok(Answer::Released),
        Err((refusal, back)) => {
            lay(purse, i, Ticket::Cleared(back));
            Err(refusal)
        }
    }
}

// Withdraws the change. The place is empty then, either way.
fn withdraw<S: Store>(
    engine: &mut Engine<S>,
    purse: &mut [Option<Ticket>],
    i: usize,
) -> Result<Answer, Refusal>
    ensures { Calls S.Reading S.Store.own (O.Withdraw i) engine.old purse.old result engine.new purse.new }
{
    let Some(ticket) = take(purse, i) else {
        return Ok(Answer::NoCall);
    };
    engine.withdraw(ticket)?;
    Ok(Answer::Withdrawn)
}

// Asks for a preview with the open ticket, which stays in its place.
fn preview<S: Store>(
    engine: &Engine<S>,
    purse: &[Option<Ticket>],
    i: usize,
    slot: u8,
) -> Result<Answer, Refusal>
    ensures { Calls S.Reading S.Store.own (O.Preview i slot) engine.now purse.now result engine.now purse.now }
{
    let Some(Some(Ticket::Open(ticket))) = purse.get(i) else {
        return Ok(Answer::NoCall);
    };
    engine.preview(ticket, slot).map(Answer::Preview)
}

// Makes the call that the order names.
fn call<S: Store>(
    engine: &mut Engine<S>,
    purse: &mut [Option<Ticket>],
    order: Order,
) -> Result<Answer, Refusal>
    ensures { Calls S.Reading S.Store.own order.entry engine.old purse.old result engine.new purse.new }
{
    // A match and no closures: the calls are a closed enum, each with its own arguments.
    match order {
        Order::Open(i) => open(engine, purse, i),
        Order::Step(i, edit) => step(engine, purse, i, edit),
        Order::Check(i) => check(engine, purse, i),
        Order::Reopen(i) => reopen(engine, purse, i),
        Order::Release(i) => release(engine, purse, i),
        Order::Withdraw(i) => withdraw(engine, purse, i),
        Order::Set(slot) => engine.set(slot).map(Answer::Set),
        Order::May(slot, actor) => engine.may(slot, actor).map(Answer::May),
        Order::Preview(i, slot) => preview(engine, purse, i, slot),
    }
}

// Makes the call that the order names, and tells what came of it.
pub(crate) fn obey<S: Store>(
    engine: &mut Engine<S>,
    purse: &mut [Option<Ticket>],
    order: Order,
) -> Answer
    ensures { Obeys (writing S.Store.own) order.entry (scene S.Reading S.Store.own engine.old purse.old) result (scene S.Reading S.Store.own engine.new purse.new) }
{
    call(engine, purse, order).unwrap_or_else(Answer::Refused)
}
