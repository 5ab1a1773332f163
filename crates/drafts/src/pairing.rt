ghost use Rattle.drafts.specs.Checks.{Checked};
ghost use Rattle.drafts.specs.Grounds.{hierarchy, lower_kind, upper_kind};
ghost use Rattle.drafts.specs.Inputs.{input_verdict};
ghost use Rattle.drafts.specs.Pairs.{PairOf, fact_of, pair_number};
ghost use Rattle.drafts.specs.declared.step.Step.TheVariants.{Link};
ghost use Rattle.std.specs.Prelude.{◌≡◌, ◌&&◌, ◌==◌};

use crate::pair::{Pair, PairSort};
use crate::refusal::Refusal;
use model::fact::Fact;
use model::possible_fact::PossibleFact;
use model::side::Side;

// Sorts and kinds are numbers where a reading is asked: it takes any bytes, and a kind's number is the sort of the facts that say what stands.
impl PairSort {
    /// The number of the sort.
    pub(crate) fn number(self) -> u8
        ensures { result ≡ pair_number self }
    {
        match self {
            PairSort::Has(side) => side.has_sort(),
            PairSort::Under(side) => side.under_sort(),
        }
    }

    /// The kind of the lower end.
    pub(crate) fn lower_kind(self) -> u8
        ensures { result ≡ lower_kind (pair_number self) }
    {
        match self {
            PairSort::Has(_) => 0,
            PairSort::Under(side) => side.stands_sort(),
        }
    }

    /// The kind of the upper end.
    pub(crate) fn upper_kind(self) -> u8
        ensures { result ≡ upper_kind (pair_number self) }
    {
        match self {
            PairSort::Has(side) | PairSort::Under(side) => side.stands_sort(),
        }
    }
}

/// The pair that the fact is, if it is a pair that can be.
impl TryFrom<Fact> for Pair {
    type Error = Refusal;

    ghost try_from_gives = { PairOf };

    fn try_from(fact: Fact) -> Result<Pair, Refusal> {
        let sort = match fact.sort {
            3 => PairSort::Has(Side::Role),
            4 => PairSort::Has(Side::Unit),
            5 => PairSort::Under(Side::Role),
            6 => PairSort::Under(Side::Unit),
            _ => return Err(Refusal::Range(255)),
        };
        if fact.x >= 64 || fact.y >= 64 {
            return Err(Refusal::Range(255));
        }
        Ok(Pair {
            sort,
            x: fact.x,
            y: fact.y,
        })
    }
}

impl Pair {
    /// The pair that the fact is, if it is to be held: nothing may be directly below itself.
    pub(crate) fn to_hold(fact: Fact) -> Result<Pair, Refusal>
        ensures { Checked (input_verdict (Link fact)) (λ p. fact_of p ≡ fact) result }
    {
        let pair = Pair::try_from(fact)?;
        if pair.is_loop() {
            return Err(Refusal::Same);
        }
        Ok(pair)
    }

    // Whether the pair puts something directly below itself.
    pub(crate) fn is_loop(self) -> bool
        ensures { result ≡ (hierarchy (pair_number self.sort) && self.x == self.y) }
    {
        match self.sort {
            PairSort::Has(_) => false,
            PairSort::Under(_) => self.x == self.y,
        }
    }
}

/// The fact that the pair is.
impl From<Pair> for PossibleFact {
    ghost from_gives = { λ pair fact. fact.fact ≡ fact_of pair };

    fn from(pair: Pair) -> PossibleFact {
        PossibleFact {
            fact: Fact {
                sort: pair.sort.number(),
                x: pair.x,
                y: pair.y,
            },
        }
    }
}
