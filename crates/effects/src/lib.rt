//! What steps do to a model and to the answers of its rules, as theorems.
#![tactic(auto)]

ghost use Rattle.effects.specs.Accepted.{AcceptedJoins, AcceptedSplits};
ghost use Rattle.effects.specs.Answers.{JoinGrows, SplitKeepsAnswers};
ghost use Rattle.effects.specs.First.{InputsGoFirst};
ghost use Rattle.effects.specs.Kept.{JoinKeepsEnds, JoinMakesNoCircle, SplitKeepsEnds, SplitMakesNoCircle};
ghost use Rattle.effects.specs.Left.{JoinLeaves, SplitLeaves};
ghost use Rattle.effects.specs.Pairs.{HasBack, HasOnto, JoinedHas, JoinedUnder, PartedHas, PartedUnder, UnderBack, UnderOnto};
ghost use Rattle.effects.specs.Rules.{JoinKeepsKind, JoinKeepsNames, SplitKeepsKind, SplitKeepsNames};
ghost use Rattle.effects.specs.Sound.{StepsStaySound};

// The pairs after a join are the pairs before it, renamed.
pub fn pairs_after_join() -> u8
    ensures has { JoinedHas }
    ensures under { JoinedUnder }
{
    0
}

// The pairs after a split are those of the shares, those of the parts with what is above the whole, and those without the whole.
pub fn pairs_after_split() -> u8
    ensures has { PartedHas }
    ensures under { PartedUnder }
{
    0
}

// With the whole put back for its parts, the pairs after a split are just the pairs before it.
pub fn pairs_before_split() -> u8
    ensures has { HasBack }
    ensures under { UnderBack }
    ensures has_onto { HasOnto }
    ensures under_onto { UnderOnto }
{
    0
}

// Joining and splitting leave the actors and the other side.
pub fn others_left() -> u8
    ensures join { JoinLeaves }
    ensures split { SplitLeaves }
{
    0
}

// The ends of every pair stand after a join or a split.
pub fn ends_stand() -> u8
    ensures join { JoinKeepsEnds }
    ensures split { SplitKeepsEnds }
{
    0
}

// Neither hierarchy runs in a circle after a join or a split.
pub fn no_circle_made() -> u8
    ensures join { JoinMakesNoCircle }
    ensures split { SplitMakesNoCircle }
{
    0
}

// A joined or split rule names what stands after the join or the split.
pub fn names_stand() -> u8
    ensures join { JoinKeepsNames }
    ensures split { SplitKeepsNames }
{
    0
}

// A joined or split rule stays without NOT, or of negated leaves only.
pub fn kinds_kept() -> u8
    ensures join { JoinKeepsKind }
    ensures split { SplitKeepsKind }
{
    0
}

// A join takes nobody from a rule without NOT, and gives nobody to a rule of negated leaves.
pub fn joins_grow() -> u8
    ensures { JoinGrows }
{
    0
}

// A split leaves everyone's answer.
pub fn splits_keep() -> u8
    ensures { SplitKeepsAnswers }
{
    0
}

// What the input of a step shows is refused first, whatever the draft holds.
pub fn inputs_go_first() -> u8
    ensures { InputsGoFirst }
{
    0
}

// An accepted join fits, and so does an accepted split; what they leave is the joined and the split model and rules.
pub fn accepted_ones_fit() -> u8
    ensures join { AcceptedJoins }
    ensures split { AcceptedSplits }
{
    0
}

// Whatever the step, a sound model stays sound.
pub fn steps_stay_sound() -> u8
    ensures { StepsStaySound }
{
    0
}
