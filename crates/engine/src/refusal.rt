ghost use Rattle.engine.specs.Refusals.{in_layer_3, refusal_numbers, unfit_numbers};
ghost use Rattle.engine.specs.declared.refusal.Refusal.TheVariants.{Step as StepRefused, Unfit as IsUnfit};
ghost use Rattle.rules.specs.Refusals.{numbers_text};
ghost use Rattle.std.specs.Prelude.{◌≡◌, Some};

use answers::validity::Invalid;
use drafts::refusal::Refusal as StepRefusal;
use rules::fault::Numbers;
use std::error::Error;
use std::fmt;

/// Why a draft cannot be released.
#[derive(Clone, Copy, PartialEq, Eq, Debug)]
pub enum Unfit {
    /// The rule in this slot is not valid.
    Rule(u8, Invalid),
    /// The model has more facts than the store has room for.
    TooMany,
}

/// Why a call is refused.
#[derive(Clone, Copy, PartialEq, Eq, Debug)]
pub enum Refusal {
    /// The step is refused for its input or for what the draft holds.
    Step(StepRefusal),
    /// The ticket is not that of the change in preparation; with the slot handed to the call, or 255, as the four numbers say it.
    Ticket(u8),
    /// A change is open or cleared already.
    Busy,
    /// All change numbers are used.
    Exhausted,
    /// The slot or the actor asked about is out of range; with the slot.
    Range(u8),
    /// The slot asked about is empty.
    Empty(u8),
    /// The draft cannot be released.
    Unfit(Unfit),
}

impl From<StepRefusal> for Refusal {
    ghost from_gives = { λ why gives. gives ≡ StepRefused why };

    fn from(why: StepRefusal) -> Refusal {
        Refusal::Step(why)
    }
}

impl From<Unfit> for Refusal {
    ghost from_gives = { λ why gives. gives ≡ IsUnfit why };

    fn from(why: Unfit) -> Refusal {
        Refusal::Unfit(why)
    }
}

// The numbers of a refusal of a ticket, an opening, a check or a question.
fn in_layer_3(number: u8, slot: u8, node: u8) -> Numbers
    ensures { result ≡ in_layer_3 number slot node }
{
    Numbers {
        number,
        layer: 3,
        slot,
        node,
    }
}

impl Unfit {
    fn numbers(self) -> Numbers
        ensures { result ≡ unfit_numbers self }
    {
        match self {
            Unfit::Rule(slot, Invalid::Absent(node)) => in_layer_3(22, slot, node),
            Unfit::Rule(slot, Invalid::Nobody) => in_layer_3(23, slot, 255),
            Unfit::TooMany => in_layer_3(24, 255, 255),
        }
    }
}

// The numbers are a table that callers know: they follow from no order of the variants.
impl Refusal {
    /// The four numbers of the refusal.
    pub fn numbers(self) -> Numbers
        ensures { result ≡ refusal_numbers self }
    {
        match self {
            Refusal::Step(refusal) => refusal.numbers(),
            Refusal::Ticket(slot) => in_layer_3(10, slot, 255),
            Refusal::Busy => in_layer_3(11, 255, 255),
            Refusal::Exhausted => in_layer_3(12, 255, 255),
            Refusal::Range(slot) => in_layer_3(2, slot, 255),
            Refusal::Empty(slot) => in_layer_3(13, slot, 255),
            Refusal::Unfit(unfit) => unfit.numbers(),
        }
    }
}

/// Its four numbers.
impl fmt::Display for Refusal {
    ghost output = { λ refusal. Some (numbers_text (refusal_numbers refusal)) };

    fn fmt<W: fmt::Write>(&self, f: &mut fmt::Formatter<W>) -> fmt::Result {
        let numbers = self.numbers();
        write!(f, "{numbers}")
    }
}

impl Error for Refusal {}
