ghost use Rattle.engine.specs.Lending.{Found, LendsChange, draft_behind};
ghost use Rattle.engine.specs.Moments.{draft_at};
ghost use Rattle.engine.specs.Views.{moment};
ghost use Rattle.std.specs.Borrow.{sem};
ghost use Rattle.std.specs.Prelude.{◌≡◌, is_some};

use crate::engine::Engine;
use drafts::draft::Draft;
use model::store::Store;

/// How far a change in preparation has come.
#[derive(Clone, Copy, PartialEq, Eq, Debug)]
pub enum Stage {
    Open,
    Cleared,
}

/// A change in preparation. Its stage lies beside its draft, so a check and a reopening move no draft.
#[derive(Drop)]
pub struct Change {
    pub(crate) stage: Stage,
    pub(crate) draft: Draft,
}

impl<S: Store> Engine<S> {
    // The numbers are a pair, as a ticket's own `numbers` gives them, in these three, and the stage is the caller's, who knows it.

    // Whether the change in preparation is at this stage, and a ticket with these numbers is its ticket.
    pub(crate) fn is_at(&self, stage: Stage, numbers: (u16, u32)) -> bool
        ensures { result ≡ is_some (draft_at (moment S.Reading S.Store.own self.now) stage numbers.0 numbers.1) }
    {
        self.change.as_ref().is_some_and(|held| {
            held.stage == stage && numbers == (self.number, self.changes)
        })
    }

    // The draft of the change at this stage, if a ticket with these numbers is its ticket.
    pub(crate) fn draft_at(&self, stage: Stage, numbers: (u16, u32)) -> Option<&Draft>
        ensures { draft_at (moment S.Reading S.Store.own self.now) stage numbers.0 numbers.1 ≡ draft_behind result }
    {
        if !self.is_at(stage, numbers) {
            return None;
        }
        Some(&self.change.as_ref()?.draft)
    }

    // The change at this stage, to be changed, if a ticket with these numbers is its ticket.
    pub(crate) fn change_at(&mut self, stage: Stage, numbers: (u16, u32)) -> Option<&mut Change>
        ensures* lends { sem 𝓛 (LendsChange S.row self.entry result) }
        ensures found { Found (moment S.Reading S.Store.own self.old) self.old.change stage numbers.0 numbers.1 result }
    {
        if !self.is_at(stage, numbers) {
            return None;
        }
        self.change.as_mut()
    }
}
