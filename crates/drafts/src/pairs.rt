ghost use Rattle.std.specs.Prelude.{◌≡◌, true, false, Decides};
ghost use Rattle.board.specs.Holding.{facts_of};
ghost use Rattle.drafts.specs.Grounds.{LinkCircle, ends_stand};
ghost use Rattle.drafts.specs.Circles.{Exchanged};
ghost use Rattle.drafts.specs.Pairs.{pair_number};
ghost use Rattle.drafts.specs.Judged.{LinkJudged, RelinkJudged, UnlinkJudged};
ghost use Rattle.drafts.specs.States.{state_of};
ghost use Rattle.drafts.specs.Steps.{Stepped};
ghost use Rattle.drafts.specs.Unmoved.{Unmoved};
ghost use Rattle.drafts.specs.declared.step.Step.TheVariants.{Link as LinkStep, Relink as RelinkStep, Unlink as UnlinkStep};

use crate::draft::Draft;
use crate::pair::{Exchange, Pair, PairSort};
use crate::placed::Placed;
use crate::refusal::Refusal;
use crate::step::Relink;
use model::chains::has_circle;
use model::fact::Fact;
use model::possible_fact::PossibleFact;
use model::reading::Reading;

impl Draft {
    fn ends_stand(&self, pair: Pair) -> bool
        ensures { result ≡ ends_stand (facts_of self.now.board) (pair_number pair.sort) pair.x pair.y }
    {
        self.stands(pair.sort.lower_kind(), pair.x) && self.stands(pair.sort.upper_kind(), pair.y)
    }

    fn is_held(&self, pair: Pair) -> bool
        ensures { result ≡ facts_of self.now.board (pair_number pair.sort) pair.x pair.y }
    {
        self.board.holds(PossibleFact::from(pair).fact)
    }

    // Whether the pair, put in, would close a circle.
    fn link_circles(&self, pair: Pair) -> bool
        ensures { Decides result (LinkCircle (facts_of self.now.board) (pair_number pair.sort) pair.x pair.y) }
    {
        match pair.sort {
            PairSort::Has(_) => false,
            PairSort::Under(side) => {
                let after = Placed {
                    reading: &self.board,
                    fact: pair.into(),
                    held: true,
                };
                has_circle(&after, side)
            }
        }
    }

    fn may_link(&self, pair: Fact) -> Result<Pair, Refusal>
        ensures { LinkJudged (facts_of self.now.board) pair result }
    {
        let pair = Pair::to_hold(pair)?;
        if !self.ends_stand(pair) {
            return Err(Refusal::Absent);
        }
        if self.is_held(pair) {
            return Err(Refusal::Held);
        }
        if self.link_circles(pair) {
            return Err(Refusal::Circle);
        }
        Ok(pair)
    }

    // The pair is held.
    pub(crate) fn link(&mut self, pair: Fact) -> Result<(), Refusal>
        ensures stepped { Stepped (LinkStep pair) (state_of self.old) result (state_of self.new) }
        ensures refused { Unmoved result self.old self.new }
    {
        let pair = self.may_link(pair)?;
        self.write(pair.into(), true);
        Ok(())
    }

    fn may_unlink(&self, pair: Fact) -> Result<Pair, Refusal>
        ensures { UnlinkJudged (facts_of self.now.board) pair result }
    {
        let pair = Pair::try_from(pair)?;
        if !self.ends_stand(pair) {
            return Err(Refusal::Absent);
        }
        if !self.is_held(pair) {
            return Err(Refusal::NotHeld);
        }
        Ok(pair)
    }

    // The pair is held no more.
    pub(crate) fn unlink(&mut self, pair: Fact) -> Result<(), Refusal>
        ensures stepped { Stepped (UnlinkStep pair) (state_of self.old) result (state_of self.new) }
        ensures refused { Unmoved result self.old self.new }
    {
        let pair = self.may_unlink(pair)?;
        self.write(pair.into(), false);
        Ok(())
    }

    // Whether the exchange would close a circle.
    fn relink_circles(&self, exchange: Exchange) -> bool
        ensures { Decides result (Exchanged (facts_of self.now.board) exchange) }
    {
        let Exchange { old, new } = exchange;
        match new.sort {
            PairSort::Has(_) => false,
            PairSort::Under(side) => {
                let without = Placed {
                    reading: &self.board,
                    fact: old.into(),
                    held: false,
                };
                let after = Placed {
                    reading: &without,
                    fact: new.into(),
                    held: true,
                };
                has_circle(&after, side)
            }
        }
    }

    fn may_relink(&self, step: Relink) -> Result<Exchange, Refusal>
        ensures { RelinkJudged (facts_of self.now.board) step result }
    {
        let exchange = Exchange::try_from(step)?;
        let Exchange { old, new } = exchange;
        if !self.ends_stand(old) || !self.stands(new.sort.upper_kind(), new.y) {
            return Err(Refusal::Absent);
        }
        if self.is_held(new) {
            return Err(Refusal::Held);
        }
        if !self.is_held(old) {
            return Err(Refusal::NotHeld);
        }
        if self.relink_circles(exchange) {
            return Err(Refusal::Circle);
        }
        Ok(exchange)
    }

    // The pair (x, y) becomes (x, z): it is held no more, then the new one is held.
    pub(crate) fn relink(&mut self, step: Relink) -> Result<(), Refusal>
        ensures stepped { Stepped (RelinkStep step) (state_of self.old) result (state_of self.new) }
        ensures refused { Unmoved result self.old self.new }
    {
        let Exchange { old, new } = self.may_relink(step)?;
        self.write(old.into(), false);
        self.write(new.into(), true);
        Ok(())
    }
}
