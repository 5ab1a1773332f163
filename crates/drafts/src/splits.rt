ghost use Rattle.std.specs.Prelude.{◌≡◌, ℕ, ◌||◌, Decides, Option};
ghost use Rattle.bits.specs.Bit.{bit};
ghost use Rattle.board.specs.Holding.{facts_of};
ghost use Rattle.drafts.specs.Parts.{parts_of};
ghost use Rattle.drafts.specs.Shares.{LowestLong, SharesFit, too_long};
ghost use Rattle.drafts.specs.Slots.{slots_of};
ghost use Rattle.drafts.specs.Judged.{PartingJudged, SplitJudged};
ghost use Rattle.drafts.specs.States.{state_of};
ghost use Rattle.drafts.specs.Steps.{Stepped};
ghost use Rattle.drafts.specs.Unmoved.{Unmoved};
ghost use Rattle.drafts.specs.declared.step.Step.TheVariants.{Split as SplitStep};

use crate::draft::Draft;
use crate::range::SplitInRange;
use crate::refusal::Refusal;
use crate::regrouping::Regrouping;
use crate::side_rows::SideRows;
use crate::step::Split;
use bits::Bits;
use rules::book::Book;

// Whether the two shares are together just the set.
fn are_together(first: Bits, second: Bits, set: Bits) -> bool
    ensures { Decides result ((i : ℕ) → (bit first.word i || bit second.word i) ≡ bit set.word i) }
{
    first.or(second) == set
}

// Whether the rule in the slot would get too long.
fn is_too_long(book: &Book, slot: u8, split: &SplitInRange) -> bool
    ensures { result ≡ too_long split.now.splitting.side (parts_of split.now) (slots_of book.now slot) }
{
    book.rule(slot)
        .is_some_and(|rule| split.rule(rule).is_none())
}

// The lowest slot whose rule would get too long. Over slot numbers, empty ones too: the contract speaks of each slot, and `filled` of those with a rule.
fn long_slot(book: &Book, split: &SplitInRange) -> Option<u8>
    ensures { LowestLong split.now.splitting.side (parts_of split.now) (slots_of book.now) result }
{
    (0..32u8).find(|slot| is_too_long(book, *slot, split))
}

impl Draft {
    // Whether the shares are together just the whole's.
    fn shares_fit(&self, split: &SplitInRange) -> bool
        ensures { Decides result (SharesFit (facts_of self.now.board) split.now.splitting.side (parts_of split.now)) }
    {
        let before = SideRows {
            reading: &self.board,
            side: split.side(),
        };
        let whole = split.splitting.whole;
        are_together(
            split.share1.actors,
            split.share2.actors,
            before.members(whole),
        ) && are_together(split.share1.below, split.share2.below, before.below(whole))
    }

    // Whether one of the two parts stands.
    fn part_stands(&self, step: Split) -> bool
        ensures { result ≡ (facts_of self.now.board step.kind step.part1 0 || facts_of self.now.board step.kind step.part2 0) }
    {
        self.stands(step.kind, step.part1) || self.stands(step.kind, step.part2)
    }

    // The grounds that the model shows.
    fn may_part(&self, step: Split) -> Result<SplitInRange, Refusal>
        ensures { PartingJudged (facts_of self.now.board) step result }
    {
        let split = SplitInRange::try_from(step)?;
        if !self.stands(step.kind, step.whole) {
            return Err(Refusal::Absent);
        }
        if self.part_stands(step) {
            return Err(Refusal::Standing);
        }
        if !self.shares_fit(&split) {
            return Err(Refusal::Shares);
        }
        Ok(split)
    }

    fn may_split(&self, step: Split) -> Result<SplitInRange, Refusal>
        ensures { SplitJudged (facts_of self.now.board) (slots_of self.now.book) step result }
    {
        let split = self.may_part(step)?;
        match long_slot(&self.book, &split) {
            Some(slot) => Err(Refusal::TooLong(slot)),
            None => Ok(split),
        }
    }

    // The whole is two parts, in the model and in every rule.
    pub(crate) fn split(&mut self, step: Split) -> Result<(), Refusal>
        ensures stepped { Stepped (SplitStep step) (state_of self.old) result (state_of self.new) }
        ensures refused { Unmoved result self.old self.new }
    {
        let split = self.may_split(step)?;
        self.regroup(&split);
        Ok(())
    }
}
