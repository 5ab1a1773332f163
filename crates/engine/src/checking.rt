ghost use Rattle.drafts.specs.States.{state_of};
ghost use Rattle.engine.specs.Checking.{Checks, Finds, InvalidAt, ValidAt};
ghost use Rattle.engine.specs.Views.{Kept, moment};
ghost use Rattle.std.specs.Prelude.{MatchResult};
ghost use Rattle.std.specs.Result.{result_err};

use crate::change::Stage;
use crate::engine::Engine;
use crate::refusal::{Refusal, Unfit};
use crate::ticket::{ClearedTicket, OpenTicket};
use answers::validity::{Invalid, validity};
use drafts::draft::Draft;
use model::store::Store;

// Whether the rule in the slot is valid, or why not. An empty slot has nothing to object to.
fn check_slot(draft: &Draft, slot: u8) -> Result<(), Invalid>
    ensures { MatchResult result (λ _. ValidAt (state_of draft.now) slot) (InvalidAt (state_of draft.now) slot) }
{
    if let Some(rule) = draft.book.rule(slot) {
        validity(&draft.board, rule)?;
    }
    Ok(())
}

// Whether the draft can be released to a store of that capacity, or what keeps it from that.
fn check_draft(draft: &Draft, capacity: usize) -> Result<(), Unfit>
    ensures { Finds capacity (state_of draft.now) (result_err result) }
{
    // Over slot numbers, since the contract speaks of each slot. By `if let`: with `map_err(..)?` it stayed open what the refusal says of the slot.
    for slot in 0..32u8 {
        if let Err(why) = check_slot(draft, slot) {
            return Err(Unfit::Rule(slot, why));
        }
    }
    if draft.board.count() > capacity {
        return Err(Unfit::TooMany);
    }
    Ok(())
}

impl<S: Store> Engine<S> {
    /// Clears the open change if every rule of its draft is valid and the store can hold its model; otherwise the first fault is told.
    pub fn check(&mut self, ticket: OpenTicket) -> Result<ClearedTicket, (Refusal, OpenTicket)>
        ensures checks { Checks (moment S.Reading S.Store.own self.old) ticket result (moment S.Reading S.Store.own self.new) }
        ensures kept { Kept result self.old self.new }
    {
        let capacity = self.store.capacity();
        let Some(change) = self.change_at(Stage::Open, ticket.numbers()) else {
            return Err((Refusal::Ticket(255), ticket));
        };
        if let Err(unfit) = check_draft(&change.draft, capacity) {
            return Err((unfit.into(), ticket));
        }
        change.stage = Stage::Cleared;
        Ok(ticket.cleared())
    }
}
