ghost use Rattle.previews.specs.Previews.{Previewed};
ghost use Rattle.rules.specs.Rules.{rule_tree};

use crate::effect::Effect;
use answers::everyone::who;
use bits::Bits;
use model::reading::Reading;
use rules::rule::Rule;

/// The people of a rule as they would be, what happens to them, and how many more or fewer they are.
#[derive(Clone, Copy, PartialEq, Eq, Debug)]
pub struct Preview {
    pub set: Bits,
    pub effect: Effect,
    pub difference: i8,
}

/// Previews a rule in a new model against a rule in the old one.
#[tactic(auto, using(crate::proofs::Heads::most_heads))]
pub fn compare<N: Reading, O: Reading>(
    new: &N,
    new_rule: &Rule,
    old: &O,
    old_rule: &Rule,
) -> Preview
    ensures { Previewed (N.Reading.held new.now) (rule_tree new_rule.now) (O.Reading.held old.now) (rule_tree old_rule.now) result }
{
    let set = who(new, new_rule);
    let released = who(old, old_rule);
    Preview {
        set,
        effect: Effect::between(set, released),
        difference: set.count() as i8 - released.count() as i8,
    }
}
