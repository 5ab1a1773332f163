ghost use Rattle.engine.specs.Checking.{cleared_ticket};
ghost use Rattle.engine.specs.Opening.{open_ticket};
ghost use Rattle.engine.specs.Moments.{Moment, draft_at, draft_of};
ghost use Rattle.std.specs.Prelude.{◌≡◌};

use crate::change::Stage;

// Two types, each with its own numbers: calls are asked for in this form, in which a ticket's type says how far its change has come.

/// The ticket of an open change: the engine's number and the change's. It cannot be copied or let go; checking and withdrawing take it.
pub struct OpenTicket {
    pub(crate) engine: u16,
    pub(crate) change: u32,
}

/// The ticket of a cleared change: the engine's number and the change's. It cannot be copied or let go; release, reopening and withdrawing take it.
pub struct ClearedTicket {
    pub(crate) engine: u16,
    pub(crate) change: u32,
}

/// A ticket of either state.
pub enum Ticket {
    Open(OpenTicket),
    Cleared(ClearedTicket),
}

impl OpenTicket {
    /// The engine's number and the change's.
    pub fn numbers(&self) -> (u16, u32)
        ensures engine { result.0 ≡ self.now.engine }
        ensures change { result.1 ≡ self.now.change }
    {
        (self.engine, self.change)
    }

    // The ticket once the change is cleared. No `From`: it would be public, and anyone could clear a change.
    pub(crate) fn cleared(self) -> ClearedTicket
        ensures { result ≡ cleared_ticket self.engine self.change }
    {
        let OpenTicket { engine, change } = self;
        ClearedTicket { engine, change }
    }
}

impl ClearedTicket {
    /// The engine's number and the change's.
    pub fn numbers(&self) -> (u16, u32)
        ensures engine { result.0 ≡ self.now.engine }
        ensures change { result.1 ≡ self.now.change }
    {
        let ClearedTicket { engine, change } = self;
        (*engine, *change)
    }

    // The ticket once the change is open again. No `From`, as above.
    pub(crate) fn opened(self) -> OpenTicket
        ensures { result ≡ open_ticket self.engine self.change }
    {
        let ClearedTicket { engine, change } = self;
        OpenTicket { engine, change }
    }
}

impl Ticket {
    // Ends the ticket: what is left are the stage of its change, and its numbers.
    pub(crate) fn spend(self) -> (Stage, (u16, u32))
        ensures { (m : Moment) → draft_of m self ≡ draft_at m result.0 result.1.0 result.1.1 }
    {
        match self {
            Ticket::Open(OpenTicket { engine, change }) => (Stage::Open, (engine, change)),
            Ticket::Cleared(ClearedTicket { engine, change }) => (Stage::Cleared, (engine, change)),
        }
    }
}
