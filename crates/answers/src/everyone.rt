ghost use Rattle.std.specs.Prelude.{ℕ, Decides};
ghost use Rattle.answers.specs.Qualify.{Qualifies, Reaches};
ghost use Rattle.bits.specs.Bit.{bit};
ghost use Rattle.model.specs.Sides.{actor_stands};
ghost use Rattle.rules.specs.Rules.{rule_tree};

use crate::actors::standing;
use crate::answer::{Answer, Question};
use crate::reader::read;
use bits::Bits;
use model::chains::all_below;
use model::reading::Reading;
use model::side::Side;
use rules::node::Leaf;
use rules::rule::Rule;

/// Asks about every actor that stands.
#[derive(Drop)]
pub struct Everyone<'a, R> {
    pub reading: &'a R,
}

impl<'a, R: Reading> Everyone<'a, R> {
    // The actors that have the role, or belong to the unit; under (+), also those that have or belong to one below it.
    fn members(&self, side: Side, number: u8, plus: bool) -> Bits
        ensures { (a : ℕ) → Decides (bit result.word a) (Reaches (R.Reading.held self.now.reading.now) side number plus a) }
    {
        let mut found = self.reading.row(side.has_sort(), number);
        if plus {
            for below in all_below(self.reading, side, number) {
                found = found.or(self.reading.row(side.has_sort(), below));
            }
        }
        found
    }
}

impl<'a, R: Reading> Question<Bits> for Everyone<'a, R> {
    ghost facts = { λ q. R.Reading.held q.reading.now };

    ghost asks = { λ q a. actor_stands (R.Reading.held q.reading.now) a };

    fn standing(&self) -> Bits {
        standing(self.reading)
    }

    fn leaf(&self, leaf: Leaf) -> Bits {
        match leaf {
            Leaf::Actor(actor) => standing(self.reading).and(Bits::none().with(actor)),
            Leaf::Group(side, number, plus) => self.members(side, number, plus),
        }
    }
}

/// The set of all who qualify for the rule, bit a for actor a.
pub fn who<R: Reading>(reading: &R, rule: &Rule) -> Bits
    ensures { (a : ℕ) → Decides (bit result.word a) (Qualifies (R.Reading.held reading.now) (rule_tree rule.now) a) }
{
    let mut stack = [Bits::none(); 16];
    let found = read(&Everyone { reading }, rule, &mut stack);
    found.and(standing(reading))
}
