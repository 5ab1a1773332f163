ghost use Rattle.drafts.specs.Slots.{slots_of};
ghost use Rattle.engine.specs.Answered.{answered, refused_if};
ghost use Rattle.engine.specs.Asking.{Foretells, RuleAt, TellsSet, TellsWhether};
ghost use Rattle.engine.specs.Moments.{released};
ghost use Rattle.engine.specs.Views.{moment};
ghost use Rattle.engine.specs.declared.refusal.Refusal.TheVariants.{Range};
ghost use Rattle.std.specs.Prelude.{◌≡◌, not, None};

use crate::change::Stage;
use crate::engine::Engine;
use crate::refusal::Refusal;
use crate::ticket::OpenTicket;
use answers::everyone::who;
use answers::one::may;
use bits::Bits;
use model::store::Store;
use previews::preview::{Preview, compare};
use rules::book::Book;
use rules::rule::Rule;

// Refuses a question about what is out of range.
fn in_range(given: bool, slot: u8) -> Result<(), Refusal>
    ensures { result ≡ answered (refused_if (not given) (Range slot) None) tt }
{
    if given {
        Ok(())
    } else {
        Err(Refusal::Range(slot))
    }
}

// The rule in the slot asked about.
fn rule_at(book: &Book, slot: u8) -> Result<&Rule, Refusal>
    ensures { RuleAt (slots_of book.now) slot result }
{
    book.rule(slot).ok_or(Refusal::Empty(slot))
}

impl<S: Store> Engine<S> {
    /// The store with the released facts, to read.
    pub fn store(&self) -> &S
        ensures { result.now ≡ self.now.store }
    {
        &self.store
    }

    /// The released book, to read.
    pub fn book(&self) -> &Book
        ensures { result.now ≡ self.now.book }
    {
        &self.book
    }

    /// The people of the slot's released rule in the released model, bit a for actor a.
    pub fn set(&self, slot: u8) -> Result<Bits, Refusal>
        ensures { TellsSet (released (moment S.Reading S.Store.own self.now)) slot result }
    {
        in_range(slot < 32, slot)?;
        Ok(who(&self.store, rule_at(&self.book, slot)?))
    }

    /// Whether the actor qualifies for the slot's released rule in the released model.
    pub fn may(&self, slot: u8, actor: u8) -> Result<bool, Refusal>
        ensures { TellsWhether (released (moment S.Reading S.Store.own self.now)) slot actor result }
    {
        in_range(slot < 32 && actor < 64, slot)?;
        Ok(may(&self.store, rule_at(&self.book, slot)?, actor))
    }

    /// The people that the slot would have if the open change were released, against those that it has.
    pub fn preview(&self, ticket: &OpenTicket, slot: u8) -> Result<Preview, Refusal>
        ensures { Foretells (moment S.Reading S.Store.own self.now) ticket.now slot result }
    {
        in_range(slot < 32, slot)?;
        let draft = self
            .draft_at(Stage::Open, ticket.numbers())
            .ok_or(Refusal::Ticket(slot))?;
        let new = rule_at(&draft.book, slot)?;
        let old = rule_at(&self.book, slot)?;
        Ok(compare(&draft.board, new, &self.store, old))
    }
}
