ghost use Rattle.drafts.specs.States.{state_of};
ghost use Rattle.drafts.specs.Steps.{Stepped};
ghost use Rattle.drafts.specs.Unmoved.{Unmoved};

use crate::draft::Draft;
use crate::refusal::Refusal;
use crate::step::Step;

impl Draft {
    /// Edits the draft, or says why not and leaves it as it was.
    pub fn step(&mut self, step: Step) -> Result<(), Refusal>
        ensures stepped { Stepped step.entry (state_of self.old) result (state_of self.new) }
        ensures refused { Unmoved result self.old self.new }
    {
        // A match and no closures: steps are asked for as an enum, and their number is closed.
        match step {
            Step::Add(entity) => self.add(entity),
            Step::Remove(entity) => self.remove(entity),
            Step::Link(pair) => self.link(pair),
            Step::Unlink(pair) => self.unlink(pair),
            Step::Relink(relink) => self.relink(relink),
            Step::Join(join) => self.join(join),
            Step::Split(split) => self.split(split),
            Step::PutRule(slot, list) => self.put_rule(slot, list),
            Step::RemoveRule(slot) => self.remove_rule(slot),
        }
    }
}
