ghost use Rattle.drafts.specs.Parts.{parts_of};
ghost use Rattle.drafts.specs.Splitting.{parted_side};
ghost use Rattle.drafts.specs.SplitSide.{parted-range, low_of};
ghost use Rattle.drafts.specs.Shares.{long_after};
ghost use Rattle.rules.specs.Changes.{tree_split};

use crate::range::SplitInRange;
use crate::regrouping::Regrouping;
use crate::side_rows::SideRows;
use bits::Bits;
use model::reading::Reading;
use model::side::Side;
use rules::rule::Rule;

impl Regrouping for SplitInRange {
    ghost side_of = { λ s. s.splitting.side };

    ghost regrouped = { λ s. parted_side (parts_of s) };

    ghost ruled = { λ s. tree_split s.splitting };

    ghost too_long = { λ s. long_after s.splitting.side (parts_of s) };

    fn side(&self) -> Side {
        self.splitting.side
    }

    fn standing<R: Reading>(&self, before: &SideRows<R>) -> Bits {
        before
            .standing()
            .without(self.splitting.whole)
            .with(self.splitting.part1)
            .with(self.splitting.part2)
    }

    fn members<R: Reading>(&self, before: &SideRows<R>, y: u8) -> Bits {
        let kept = before.members(y).when(y != self.splitting.whole);
        let first = self.share1.actors.when(y == self.splitting.part1);
        let second = self.share2.actors.when(y == self.splitting.part2);
        first.or(second).or(kept)
    }

    fn below<R: Reading>(&self, before: &SideRows<R>, y: u8) -> Bits {
        let row = before.below(y);
        let parts = Bits::none()
            .with(self.splitting.part1)
            .with(self.splitting.part2)
            .when(row.has(self.splitting.whole));
        let first = self.share1.below.when(y == self.splitting.part1);
        let second = self.share2.below.when(y == self.splitting.part2);
        let kept = row
            .without(self.splitting.whole)
            .when(y != self.splitting.whole);
        parts.or(first).or(second).or(kept)
    }

    fn rule(&self, rule: &Rule) -> Option<Rule> {
        rule.split(self.splitting)
    }

    ghost keeps_range = { λ s S r. parted-range (parts_of s) S r (low_of s) };
}
