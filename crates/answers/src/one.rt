ghost use Rattle.std.specs.Prelude.{◌≡◌, ℕ, ◌&&◌, Decides, ◌==◌};
ghost use Rattle.answers.specs.Qualify.{Qualifies, Reaches};
ghost use Rattle.model.specs.Sides.{actor_stands, has};
ghost use Rattle.rules.specs.Rules.{rule_tree};

use crate::actors::stands;
use crate::answer::Question;
use crate::reader::read;
use model::chains::all_below;
use model::fact::Fact;
use model::reading::Reading;
use model::side::Side;
use rules::node::Leaf;
use rules::rule::Rule;

/// Asks about one actor, if it stands.
#[derive(Drop)]
pub struct One<'a, R> {
    pub reading: &'a R,
    pub actor: u8,
}

impl<'a, R: Reading> One<'a, R> {
    // Whether the actor has the role, or belongs to the unit.
    fn has(&self, side: Side, number: u8) -> bool
        ensures { result ≡ has (R.Reading.held self.now.reading.now) side self.now.actor number }
    {
        self.reading.holds(Fact {
            sort: side.has_sort(),
            x: self.actor,
            y: number,
        })
    }

    // Apart from the set of all members: one method for both would need the answer's `or` and a fold in place of `any`, and would not stop at the first hit.
    // Whether the actor has the role, or belongs to the unit; under (+), also whether it has or belongs to one below it.
    fn is_member(&self, side: Side, number: u8, plus: bool) -> bool
        ensures { Decides result (Reaches (R.Reading.held self.now.reading.now) side number plus self.now.actor) }
    {
        self.has(side, number)
            || (plus
                && all_below(self.reading, side, number)
                    .into_iter()
                    .any(|below| self.has(side, below)))
    }
}

impl<'a, R: Reading> Question<bool> for One<'a, R> {
    ghost facts = { λ q. R.Reading.held q.reading.now };

    ghost asks = { λ q a. (a == q.actor) && actor_stands (R.Reading.held q.reading.now) a };

    fn standing(&self) -> bool {
        true
    }

    fn leaf(&self, leaf: Leaf) -> bool {
        match leaf {
            Leaf::Actor(actor) => actor == self.actor,
            Leaf::Group(side, number, plus) => self.is_member(side, number, plus),
        }
    }
}

/// Whether the actor qualifies for the rule.
pub fn may<R: Reading>(reading: &R, rule: &Rule, actor: u8) -> bool
    ensures { Decides result (Qualifies (R.Reading.held reading.now) (rule_tree rule.now) actor) }
{
    let mut stack = [false; 16];
    stands(reading, actor) && read(&One { reading, actor }, rule, &mut stack)
}
