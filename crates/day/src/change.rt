ghost use Rattle.std.specs.Prelude.{◌<◌};

use drafts::step::Step;
use engine::engine::Engine;
use engine::refusal::Refusal;
use engine::ticket::{OpenTicket, Ticket};
use model::store::Store;
use previews::preview::Preview;
use std::array;

/// How a change went, from its opening to its end.
#[derive(Clone, Copy)]
pub struct Account {
    pub engine: u16,
    pub change: u32,
    /// How many steps were taken.
    pub taken: u32,
    /// The last step that was refused.
    pub refused: Option<Refusal>,
    /// What each slot would have, where the preview was not refused.
    pub previews: [Option<Preview>; 32],
    /// Whether it was released, or why not.
    pub end: Result<(), Refusal>,
}

/// Makes the steps one after another. Tells how many were taken, and the last refusal.
pub(crate) fn make_steps<S: Store>(
    engine: &mut Engine<S>,
    ticket: &OpenTicket,
    steps: &[Step],
) -> (u32, Option<Refusal>) {
    let mut taken: u32 = 0;
    let mut refused = None;
    for step in steps {
        match engine.step(ticket, *step) {
            Ok(()) => taken = taken.saturating_add(1),
            Err(refusal) => refused = Some(refusal),
        }
    }
    (taken, refused)
}

// What each slot would have if the change were released.
fn preview_all<S: Store>(engine: &Engine<S>, ticket: &OpenTicket) -> [Option<Preview>; 32] {
    array::from_fn(
        |slot: usize| -> Option<Preview>
            requires { slot < 32 }
        { engine.preview(ticket, slot as u8).ok() },
    )
}

// Withdraws the change of a ticket that was given back, and passes on why. The client has the same lines, since it stands alone.
fn give_up<S: Store>(engine: &mut Engine<S>, why: Refusal, ticket: Ticket) -> Refusal {
    let _ = engine.withdraw(ticket);
    why
}

// Checks the change and releases it, or withdraws it and says why.
fn end<S: Store>(engine: &mut Engine<S>, ticket: OpenTicket) -> Result<(), Refusal> {
    let cleared = engine
        .check(ticket)
        .map_err(|(why, back)| give_up(engine, why, Ticket::Open(back)))?;
    engine
        .release(cleared)
        .map_err(|(why, back)| give_up(engine, why, Ticket::Cleared(back)))
}

/// Opens a change, makes the steps, previews every slot and checks the draft. A cleared change is released, any other withdrawn.
pub(crate) fn carry_out<S: Store>(
    engine: &mut Engine<S>,
    steps: &[Step],
) -> Result<Account, Refusal> {
    let ticket = engine.open()?;
    let (number, change) = ticket.numbers();
    let (taken, refused) = make_steps(engine, &ticket, steps);
    let previews = preview_all(engine, &ticket);
    Ok(Account {
        engine: number,
        change,
        taken,
        refused,
        previews,
        end: end(engine, ticket),
    })
}
