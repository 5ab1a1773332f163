ghost use Rattle.std.specs.Prelude.{◌≡◌, ◌<◌, OnOk};
ghost use Rattle.drafts.specs.Checks.{Checked, TreeChecked};
ghost use Rattle.drafts.specs.Inputs.{input_verdict, step_slot};
ghost use Rattle.drafts.specs.Outcomes.{answered};
ghost use Rattle.drafts.specs.Read.{ExchangeOf, JoinOf, SplitRead, StandingOf};
ghost use Rattle.drafts.specs.declared.step.Step.TheVariants.{PutRule, RemoveRule};

use crate::pair::{Exchange, Pair};
use crate::range::{JoinInRange, Share, SplitInRange};
use crate::refusal::Refusal;
use crate::step::{Entity, Join, Relink, Split, Step};
use bits::Bits;
use model::fact::Fact;
use model::possible_fact::PossibleFact;
use model::side::Side;
use rules::bytes::NodeBytes;
use rules::change::{Joining, Splitting};
use rules::fault::Fault;
use rules::rule::Rule;

/// The fact that the entity stands, if kind and number are in range.
impl TryFrom<Entity> for PossibleFact {
    type Error = Refusal;

    ghost try_from_gives = { StandingOf };

    fn try_from(entity: Entity) -> Result<PossibleFact, Refusal> {
        if entity.kind >= 3 || entity.number >= 64 {
            return Err(Refusal::Range(255));
        }
        Ok(PossibleFact {
            fact: Fact {
                sort: entity.kind,
                x: entity.number,
                y: 0,
            },
        })
    }
}

/// The old pair and the new one, if sort and numbers are in range and the new pair may be held.
impl TryFrom<Relink> for Exchange {
    type Error = Refusal;

    ghost try_from_gives = { ExchangeOf };

    fn try_from(step: Relink) -> Result<Exchange, Refusal> {
        let Relink { sort, x, y, z } = step;
        let old = Pair::try_from(Fact { sort, x, y })?;
        let new = Pair::try_from(Fact { sort, x, y: z })?;
        if y == z || new.is_loop() {
            return Err(Refusal::Same);
        }
        Ok(Exchange { old, new })
    }
}

/// The join with its side, if kind and numbers are in range and the two differ.
impl TryFrom<Join> for JoinInRange {
    type Error = Refusal;

    ghost try_from_gives = { JoinOf };

    fn try_from(step: Join) -> Result<JoinInRange, Refusal> {
        let side = Side::try_from(step.kind)?;
        if step.first >= 64 || step.second >= 64 || step.into >= 64 {
            return Err(Refusal::Range(255));
        }
        if step.first == step.second {
            return Err(Refusal::Same);
        }
        Ok(JoinInRange {
            joining: Joining {
                side,
                first: step.first,
                second: step.second,
                into: step.into,
            },
        })
    }
}

/// The split with its side, if kind and numbers are in range and the parts differ.
impl TryFrom<Split> for SplitInRange {
    type Error = Refusal;

    ghost try_from_gives = { SplitRead };

    fn try_from(step: Split) -> Result<SplitInRange, Refusal> {
        let side = Side::try_from(step.kind)?;
        if step.whole >= 64 || step.part1 >= 64 || step.part2 >= 64 {
            return Err(Refusal::Range(255));
        }
        if step.part1 == step.part2 {
            return Err(Refusal::Same);
        }
        Ok(SplitInRange {
            splitting: Splitting {
                side,
                whole: step.whole,
                part1: step.part1,
                part2: step.part2,
            },
            share1: Share {
                actors: Bits { word: step.actors1 },
                below: Bits { word: step.below1 },
            },
            share2: Share {
                actors: Bits { word: step.actors2 },
                below: Bits { word: step.below2 },
            },
        })
    }
}

// The rule that the list is. A list with no nodes or too many goes before the slot, and what the nodes show after it.
pub(crate) fn checked_rule(slot: u8, list: &[NodeBytes]) -> Result<Rule, Refusal>
    ensures { Checked (input_verdict (PutRule slot list.entry)) (TreeChecked slot list.now) result }
{
    match Rule::read(list) {
        Err(Fault::Length) => Err(Refusal::List(slot, Fault::Length)),
        // Two arms: with one, and `map_err` in it, it stayed open that the rule is the list's.
        Err(fault) => {
            checked_slot(slot)?;
            Err(Refusal::List(slot, fault))
        }
        Ok(rule) => {
            checked_slot(slot)?;
            Ok(rule)
        }
    }
}

// Whether a book has the slot.
pub(crate) fn checked_slot(slot: u8) -> Result<(), Refusal>
    ensures verdict { result ≡ answered (input_verdict (RemoveRule slot)) }
    ensures within { OnOk result (slot < 32) }
{
    if slot < 32 {
        Ok(())
    } else {
        Err(Refusal::Range(slot))
    }
}

impl Step<'_> {
    /// Refuses the step on the first ground that its input shows, whatever the draft holds, if it shows one.
    pub fn check_input(self) -> Result<(), Refusal>
        ensures { result ≡ answered (input_verdict self.entry) }
    {
        // A match and no closures: steps are asked for as an enum, and their number is closed.
        match self {
            Step::Add(entity) | Step::Remove(entity) => {
                PossibleFact::try_from(entity)?;
            }
            Step::Link(pair) => {
                Pair::to_hold(pair)?;
            }
            Step::Unlink(pair) => {
                Pair::try_from(pair)?;
            }
            Step::Relink(relink) => {
                Exchange::try_from(relink)?;
            }
            Step::Join(join) => {
                JoinInRange::try_from(join)?;
            }
            Step::Split(split) => {
                SplitInRange::try_from(split)?;
            }
            Step::PutRule(slot, list) => {
                checked_rule(slot, list)?;
            }
            Step::RemoveRule(slot) => checked_slot(slot)?,
        }
        Ok(())
    }

    // An Option: it is public and promised so; `check_input` is the form with `?`.

    /// The first ground on which the step is refused whatever the draft holds, if its input shows one.
    pub fn input_refusal(self) -> Option<Refusal>
        ensures { result ≡ input_verdict self.entry }
    {
        self.check_input().err()
    }

    /// The slot that is handed in with the step, or 255 where there is none: so the four numbers of a refusal say it.
    pub fn slot(self) -> u8
        ensures { result ≡ step_slot self.entry }
    {
        match self {
            Step::PutRule(slot, _) | Step::RemoveRule(slot) => slot,
            _ => 255,
        }
    }
}
