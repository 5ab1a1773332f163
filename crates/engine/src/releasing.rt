ghost use Rattle.engine.specs.Releasing.{Releases};
ghost use Rattle.engine.specs.Views.{SameIfRefused, moment};
ghost use Rattle.transfer.specs.Contents.{writing};

use crate::change::Stage;
use crate::engine::Engine;
use crate::refusal::Refusal;
use crate::ticket::{ClearedTicket, Ticket};
use model::store::Store;
use transfer::write_out::write_out;

impl<S: Store> Engine<S> {
    /// Releases the cleared change: its facts are written to the store, its rules to the book, and the change has ended.
    pub fn release(&mut self, ticket: ClearedTicket) -> Result<(), (Refusal, ClearedTicket)>
        ensures releases { Releases (writing S.Store.own) (moment S.Reading S.Store.own self.old) ticket result (moment S.Reading S.Store.own self.new) }
        ensures refused { SameIfRefused result self.old self.new }
    {
        let Some(&draft) = self.draft_at(Stage::Cleared, ticket.numbers()) else {
            return Err((Refusal::Ticket(255), ticket));
        };
        Ticket::Cleared(ticket).spend();
        write_out(&mut self.store, &draft.board);
        self.book = draft.book;
        self.change = None;
        Ok(())
    }
}
