use bits::Bits;
use drafts::step::Step;
use engine::refusal::Refusal;
use previews::preview::Preview;

// A place of the purse stands for a ticket: orders are data that can be copied, and tickets cannot.

/// One call to be made. Calls with a ticket name the place of the purse where it lies; an opening names the free place for its ticket.
#[derive(Clone, Copy)]
pub enum Order<'a> {
    Open(usize),
    Step(usize, Step<'a>),
    Check(usize),
    Reopen(usize),
    Release(usize),
    Withdraw(usize),
    Set(u8),
    May(u8, u8),
    Preview(usize, u8),
}

/// What came of an order.
#[derive(Clone, Copy, PartialEq, Eq, Debug)]
pub enum Answer {
    /// The place holds no ticket that the call takes, or is not free for an opening: no call was made.
    NoCall,
    Refused(Refusal),
    Opened,
    Stepped,
    Cleared,
    Reopened,
    Released,
    Withdrawn,
    Set(Bits),
    May(bool),
    Preview(Preview),
}
