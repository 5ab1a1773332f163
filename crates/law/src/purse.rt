ghost use Rattle.std.specs.Prelude.{◌≡◌, ◌<◌, length, Some, None, Option, MatchResult, refl, slice_set};
ghost use Rattle.engine.specs.declared.ticket.Ticket.{Ticket};
ghost use Rattle.law.specs.Purses.{if_cleared, if_open, ticket_at};
ghost use Rattle.law.specs.Taking.{Leaves};

use engine::ticket::{ClearedTicket, OpenTicket, Ticket};

// A trait of its own: a bound `TryFrom<Ticket>` does not say which ticket of a purse is one of the stage.

/// A ticket of one stage, among tickets of either.
pub(crate) trait Staged: Sized {
    // The ticket in a place, if it is one of this stage.
    ghost among: { Option Ticket → Option Self };

    // The ticket as one of this stage, or just as it came.
    fn of(ticket: Ticket) -> Result<Self, Ticket>
        ensures { MatchResult result (λ own. among (Some ticket) ≡ Some own) (λ other. (among (Some ticket) ≡ None) × (other ≡ ticket)) };

    ghost none_in_an_empty_place: { among None ≡ None };
}

impl Staged for OpenTicket {
    ghost among = { if_open };

    ghost none_in_an_empty_place = { refl };

    fn of(ticket: Ticket) -> Result<OpenTicket, Ticket> {
        match ticket {
            Ticket::Open(ticket) => Ok(ticket),
            other => Err(other),
        }
    }
}

impl Staged for ClearedTicket {
    ghost among = { if_cleared };

    ghost none_in_an_empty_place = { refl };

    fn of(ticket: Ticket) -> Result<ClearedTicket, Ticket> {
        match ticket {
            Ticket::Cleared(ticket) => Ok(ticket),
            other => Err(other),
        }
    }
}

// Purse and place are two parameters here: an order names the place, and the purse is the caller's; a struct of both would be made anew for each call.

// Lays a ticket into an empty place.
pub(crate) fn lay(purse: &mut [Option<Ticket>], i: usize, ticket: Ticket)
    requires place { i < length purse.old }
    requires free { ticket_at purse.old i ≡ None }
    ensures { purse.new ≡ slice_set purse.old i (Some ticket) }
{
    // By a match: an assignment would let go of what lies there, and a ticket is not `Drop`.
    match purse[i].replace(ticket) {
        None => {}
        Some(_ticket) => unreachable!(),
    }
}

// Takes the ticket out of the place.
pub(crate) fn take(purse: &mut [Option<Ticket>], i: usize) -> Option<Ticket>
    ensures ticket { ticket_at purse.old i ≡ result }
    ensures left { Leaves result purse.old i purse.new }
{
    // By index: `purse.get_mut(i)?.take()` was tried, and after it the proof knows how many places there are, and not what lies in them.
    if i < purse.len() {
        purse[i].take()
    } else {
        None
    }
}

// Takes the ticket out of the place, if it is one of the stage that is wanted.
pub(crate) fn take_as<K: Staged>(purse: &mut [Option<Ticket>], i: usize) -> Option<K>
    ensures ticket { K.among (ticket_at purse.old i) ≡ result }
    ensures left { Leaves result purse.old i purse.new }
{
    match K::of(take(purse, i)?) {
        Ok(ticket) => Some(ticket),
        Err(other) => {
            lay(purse, i, other);
            None
        }
    }
}
