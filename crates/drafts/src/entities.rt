ghost use Rattle.std.specs.Prelude.{◌≡◌, ℕ, true, Decides};
ghost use Rattle.board.specs.Holding.{facts_of};
ghost use Rattle.drafts.specs.Ends.{EndIn};
ghost use Rattle.drafts.specs.Grounds.{InPair};
ghost use Rattle.drafts.specs.Pairs.{pair_number};
ghost use Rattle.drafts.specs.Judged.{AddJudged, RemoveJudged};
ghost use Rattle.drafts.specs.States.{state_of};
ghost use Rattle.drafts.specs.Steps.{Stepped};
ghost use Rattle.drafts.specs.Unmoved.{Unmoved};
ghost use Rattle.drafts.specs.declared.step.Step.TheVariants.{Add, Remove};
ghost use Rattle.model.specs.Facts.{placed};

use crate::draft::Draft;
use crate::pair::PairSort;
use crate::refusal::Refusal;
use crate::step::Entity;
use bits::Bits;
use model::fact::Fact;
use model::possible_fact::PossibleFact;
use model::reading::Reading;
use model::side::Side;
use model::store::Store;

impl Draft {
    // Writes a fact in or out.
    pub(crate) fn write(&mut self, fact: PossibleFact, held: bool)
        ensures facts { (s x y : ℕ) → facts_of self.new.board s x y ≡ placed (facts_of self.old.board) fact.fact.sort fact.fact.x fact.fact.y held s x y }
        ensures book { self.new.book ≡ self.old.book }
    {
        if held {
            self.board.put(fact.fact);
        } else {
            self.board.drop_fact(fact.fact);
        }
    }

    // Whether the entity of this kind and number stands. Not one function in model for all that asks this: it would be a new public call that only wraps `holds`.
    pub(crate) fn stands(&self, kind: u8, number: u8) -> bool
        ensures { result ≡ facts_of self.now.board kind number 0 }
    {
        self.board.holds(Fact {
            sort: kind,
            x: number,
            y: 0,
        })
    }

    fn may_add(&self, entity: Entity) -> Result<PossibleFact, Refusal>
        ensures { AddJudged (facts_of self.now.board) entity result }
    {
        let fact = PossibleFact::try_from(entity)?;
        if self.stands(entity.kind, entity.number) {
            return Err(Refusal::Standing);
        }
        Ok(fact)
    }

    // The entity stands.
    pub(crate) fn add(&mut self, entity: Entity) -> Result<(), Refusal>
        ensures stepped { Stepped (Add entity) (state_of self.old) result (state_of self.new) }
        ensures refused { Unmoved result self.old self.new }
    {
        let fact = self.may_add(entity)?;
        self.write(fact, true);
        Ok(())
    }

    // Whether a pair of the sort has the number as its lower end. By `or` and not by `any`: with no test between its rows the pass is faster.
    fn is_lower_end(&self, sort: PairSort, number: u8) -> bool
        ensures { Decides result ((y : ℕ) × (facts_of self.now.board (pair_number sort) number y ≡ true)) }
    {
        let mut lower = Bits::none();
        for y in 0..64u8 {
            lower = lower.or(self.board.row(sort.number(), y));
        }
        lower.has(number)
    }

    // Whether a pair of the sort has the number as its upper end.
    fn is_upper_end(&self, sort: PairSort, number: u8) -> bool
        ensures { Decides result ((x : ℕ) × (facts_of self.now.board (pair_number sort) x number ≡ true)) }
    {
        !self.board.row(sort.number(), number).is_empty()
    }

    // Whether the entity is in a pair of the sort, at either end.
    fn is_end(&self, sort: PairSort, entity: Entity) -> bool
        ensures { Decides result (EndIn (facts_of self.now.board) (pair_number sort) entity.kind entity.number) }
    {
        sort.lower_kind() == entity.kind && self.is_lower_end(sort, entity.number)
            || sort.upper_kind() == entity.kind && self.is_upper_end(sort, entity.number)
    }

    // Whether the entity is in a pair, at either end.
    fn is_paired(&self, entity: Entity) -> bool
        ensures { Decides result (InPair (facts_of self.now.board) entity.kind entity.number) }
    {
        self.is_end(PairSort::Has(Side::Role), entity)
            || self.is_end(PairSort::Has(Side::Unit), entity)
            || self.is_end(PairSort::Under(Side::Role), entity)
            || self.is_end(PairSort::Under(Side::Unit), entity)
    }

    fn may_remove(&self, entity: Entity) -> Result<PossibleFact, Refusal>
        ensures { RemoveJudged (facts_of self.now.board) entity result }
    {
        let fact = PossibleFact::try_from(entity)?;
        if !self.stands(entity.kind, entity.number) {
            return Err(Refusal::Absent);
        }
        if self.is_paired(entity) {
            return Err(Refusal::Paired);
        }
        Ok(fact)
    }

    // The entity, which is in no pair, stands no more.
    pub(crate) fn remove(&mut self, entity: Entity) -> Result<(), Refusal>
        ensures stepped { Stepped (Remove entity) (state_of self.old) result (state_of self.new) }
        ensures refused { Unmoved result self.old self.new }
    {
        let fact = self.may_remove(entity)?;
        self.write(fact, false);
        Ok(())
    }
}
