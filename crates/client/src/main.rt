//! A client of the engine: takes one change from its opening to its end, and leaves no ticket.
#![tactic(auto)]

use board::Board;
use drafts::step::{Entity, Step};
use engine::engine::Engine;
use engine::refusal::Refusal;
use engine::ticket::Ticket;
use model::store::Store;
use std::io;

fn add(number: u8) -> Step<'static> {
    Step::Add(Entity { kind: 0, number })
}

// Withdraws the change of a ticket that was given back, and passes on why.
fn give_up<S: Store>(engine: &mut Engine<S>, why: Refusal, ticket: Ticket) -> Refusal {
    let _ = engine.withdraw(ticket);
    why
}

// Adds an actor and releases the change, or says why the actor was not added. A change that cannot be released is withdrawn.
fn add_actor<S: Store>(engine: &mut Engine<S>, number: u8) -> Result<(), Refusal> {
    let ticket = engine.open()?;
    let added = engine.step(&ticket, add(number));
    let cleared = engine
        .check(ticket)
        .map_err(|(why, back)| give_up(engine, why, Ticket::Open(back)))?;
    engine
        .release(cleared)
        .map_err(|(why, back)| give_up(engine, why, Ticket::Cleared(back)))?;
    added
}

fn main(rt: HostRuntime) -> io::Result<()> {
    let mut engine = Engine::new(Board::new(), 7);
    let first = add_actor(&mut engine, 5).is_ok();
    let again = add_actor(&mut engine, 5).is_ok();
    let count = engine.into_store().count();
    println!(rt; "added: {first}; again: {again}; facts held: {count}")
}
