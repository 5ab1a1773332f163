ghost use Rattle.std.specs.Prelude.{◌≡◌};
ghost use Rattle.board.specs.Holding.{facts_of};
ghost use Rattle.drafts.specs.Judged.{JoinJudged};
ghost use Rattle.drafts.specs.States.{state_of};
ghost use Rattle.drafts.specs.Steps.{Stepped};
ghost use Rattle.drafts.specs.Unmoved.{Unmoved};
ghost use Rattle.drafts.specs.declared.step.Step.TheVariants.{Join as JoinStep};

use crate::draft::Draft;
use crate::range::JoinInRange;
use crate::refusal::Refusal;
use crate::step::Join;

impl Draft {
    fn may_join(&self, step: Join) -> Result<JoinInRange, Refusal>
        ensures { JoinJudged (facts_of self.now.board) step result }
    {
        let join = JoinInRange::try_from(step)?;
        if !self.stands(step.kind, step.first) || !self.stands(step.kind, step.second) {
            return Err(Refusal::Absent);
        }
        if self.stands(step.kind, step.into) {
            return Err(Refusal::Standing);
        }
        if self.regrouping_circles(&join) {
            return Err(Refusal::Circle);
        }
        Ok(join)
    }

    // The two are one, in the model and in every rule.
    pub(crate) fn join(&mut self, step: Join) -> Result<(), Refusal>
        ensures stepped { Stepped (JoinStep step) (state_of self.old) result (state_of self.new) }
        ensures refused { Unmoved result self.old self.new }
    {
        let join = self.may_join(step)?;
        self.regroup(&join);
        Ok(())
    }
}
