ghost use Rattle.engine.specs.Opening.{Opens, Reopens, Withdraws, made};
ghost use Rattle.engine.specs.Views.{Kept, moment};
ghost use Rattle.model.specs.Facts.{nothing};
ghost use Rattle.std.specs.Prelude.{◌≡◌};
ghost use Rattle.transfer.specs.Contents.{content, writing};

use crate::change::{Change, Stage};
use crate::engine::Engine;
use crate::refusal::Refusal;
use crate::ticket::{ClearedTicket, OpenTicket, Ticket};
use board::Board;
use drafts::draft::Draft;
use model::store::Store;
use rules::book::Book;
use transfer::load::load;
use transfer::write_out::write_out;

// How many changes an engine can open.
const CHANGES: u32 = 1000000;

impl<S: Store> Engine<S> {
    /// A new engine over the store. It drops every fact from the store, and its book is empty.
    pub fn new(mut store: S, number: u16) -> Engine<S>
        ensures made { moment S.Reading S.Store.own result ≡ made (writing S.Store.own) (content S.Reading S.Store.own store) number }
        ensures empty { S.Reading.held result.store ≡ nothing }
    {
        write_out(&mut store, &Board::new());
        Engine {
            store,
            book: Book::new(),
            number,
            changes: 0,
            change: None,
        }
    }

    /// Opens the next change: its draft begins with what is released.
    pub fn open(&mut self) -> Result<OpenTicket, Refusal>
        ensures opens { Opens (moment S.Reading S.Store.own self.old) result (moment S.Reading S.Store.own self.new) }
        ensures kept { Kept result self.old self.new }
    {
        if self.change.is_some() {
            return Err(Refusal::Busy);
        }
        if self.changes >= CHANGES {
            return Err(Refusal::Exhausted);
        }
        let mut draft = Draft {
            board: Board::new(),
            book: self.book,
        };
        load(&mut draft.board, &self.store);
        self.changes += 1;
        self.change = Some(Change {
            stage: Stage::Open,
            draft,
        });
        Ok(OpenTicket {
            engine: self.number,
            change: self.changes,
        })
    }

    /// Opens the cleared change again, with the same draft.
    pub fn reopen(&mut self, ticket: ClearedTicket) -> Result<OpenTicket, (Refusal, ClearedTicket)>
        ensures reopens { Reopens (moment S.Reading S.Store.own self.old) ticket result (moment S.Reading S.Store.own self.new) }
        ensures kept { Kept result self.old self.new }
    {
        let Some(change) = self.change_at(Stage::Cleared, ticket.numbers()) else {
            return Err((Refusal::Ticket(255), ticket));
        };
        change.stage = Stage::Open;
        Ok(ticket.opened())
    }

    /// Ends the change without a release. The ticket is spent, also where it is refused.
    pub fn withdraw(&mut self, ticket: Ticket) -> Result<(), Refusal>
        ensures withdraws { Withdraws (moment S.Reading S.Store.own self.old) ticket result (moment S.Reading S.Store.own self.new) }
        ensures kept { Kept result self.old self.new }
    {
        let (stage, numbers) = ticket.spend();
        if !self.is_at(stage, numbers) {
            return Err(Refusal::Ticket(255));
        }
        self.change = None;
        Ok(())
    }

    /// Takes the engine apart, and gives back the store. A draft is lost with the engine.
    pub fn into_store(self) -> S
        ensures { result ≡ self.store }
    {
        let Engine {
            store,
            book: _,
            number: _,
            changes: _,
            change: _,
        } = self;
        store
    }
}
