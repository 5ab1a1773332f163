ghost use Rattle.engine.specs.Stepping.{Steps};
ghost use Rattle.engine.specs.Views.{Kept, moment};

use crate::change::Stage;
use crate::engine::Engine;
use crate::refusal::Refusal;
use crate::ticket::OpenTicket;
use drafts::step::Step;
use model::store::Store;

impl<S: Store> Engine<S> {
    /// Edits the draft of the open change, or says why not and leaves it as it was.
    pub fn step(&mut self, ticket: &OpenTicket, step: Step) -> Result<(), Refusal>
        ensures steps { Steps (moment S.Reading S.Store.own self.old) ticket.now step.entry result (moment S.Reading S.Store.own self.new) }
        ensures kept { Kept result self.old self.new }
    {
        step.check_input()?;
        let change = self
            .change_at(Stage::Open, ticket.numbers())
            .ok_or(Refusal::Ticket(step.slot()))?;
        change.draft.step(step)?;
        Ok(())
    }
}
