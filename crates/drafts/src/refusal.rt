ghost use Rattle.drafts.specs.Refusals.{refusal_numbers};
ghost use Rattle.drafts.specs.declared.refusal.Refusal.TheVariants.{Range};
ghost use Rattle.rules.specs.Refusals.{numbers_text};
ghost use Rattle.std.specs.Prelude.{◌≡◌, Some};

use model::side::NoSide;
use rules::fault::{Fault, Numbers};
use std::error::Error;
use std::fmt;

/// Why a step is refused.
#[derive(Clone, Copy, PartialEq, Eq, Debug)]
pub enum Refusal {
    /// The node list for this slot is no rule.
    List(u8, Fault),
    /// A kind, a sort, a number or the slot is out of range; 255 where there is no slot, as the four numbers say it.
    Range(u8),
    /// Two entities that must differ are one.
    Same,
    /// The slot is empty.
    Empty(u8),
    /// An entity of the step does not stand.
    Absent,
    /// An entity to be made stands.
    Standing,
    /// The new pair is held.
    Held,
    /// The old pair is not held.
    NotHeld,
    /// The entity to be removed is in a pair.
    Paired,
    /// The step would leave a circle.
    Circle,
    /// The shares together are not just the whole's.
    Shares,
    /// The rule in this slot would have more than 31 nodes.
    TooLong(u8),
}

// The numbers are a table that callers know: they follow from no order of the variants.
impl Refusal {
    /// The four numbers of the refusal.
    pub fn numbers(self) -> Numbers
        ensures { result ≡ refusal_numbers self }
    {
        let (number, slot) = match self {
            Refusal::List(slot, fault) => return fault.numbers(slot),
            Refusal::Range(slot) => (2, slot),
            Refusal::Same => (4, 255),
            Refusal::Empty(slot) => (13, slot),
            Refusal::Absent => (14, 255),
            Refusal::Standing => (15, 255),
            Refusal::Held => (16, 255),
            Refusal::NotHeld => (17, 255),
            Refusal::Paired => (18, 255),
            Refusal::Circle => (19, 255),
            Refusal::Shares => (20, 255),
            Refusal::TooLong(slot) => (21, slot),
        };
        Numbers {
            number,
            layer: 2,
            slot,
            node: 255,
        }
    }
}

impl From<NoSide> for Refusal {
    ghost from_gives = { λ _ refusal. refusal ≡ Range 255 };

    fn from(_kind: NoSide) -> Refusal {
        Refusal::Range(255)
    }
}

/// Its four numbers.
impl fmt::Display for Refusal {
    ghost output = { λ refusal. Some (numbers_text (refusal_numbers refusal)) };

    fn fmt<W: fmt::Write>(&self, f: &mut fmt::Formatter<W>) -> fmt::Result {
        let numbers = self.numbers();
        write!(f, "{numbers}")
    }
}

impl Error for Refusal {}
