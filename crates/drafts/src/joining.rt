ghost use Rattle.std.specs.Prelude.{◌≡◌, ℕ, false, not, ◌&&◌, ◌||◌, ◌==◌};
ghost use Rattle.bits.specs.Bit.{bit};
ghost use Rattle.drafts.specs.Joining.{joined_side};
ghost use Rattle.drafts.specs.JoinSide.{join-range};
ghost use Rattle.rules.specs.Changes.{tree_joined};
ghost use Rattle.rules.specs.Edits.{joins};

use crate::range::JoinInRange;
use crate::regrouping::Regrouping;
use crate::side_rows::SideRows;
use bits::Bits;
use model::reading::Reading;
use model::side::Side;
use rules::rule::Rule;

impl JoinInRange {
    fn joins(&self, number: u8) -> bool
        ensures { result ≡ joins self.now.joining.first self.now.joining.second number }
    {
        number == self.joining.first || number == self.joining.second
    }

    // The row without the two.
    fn without_both(&self, row: Bits) -> Bits
        ensures { (x : ℕ) → bit result.word x ≡ (bit row.word x && not (joins self.now.joining.first self.now.joining.second x)) }
    {
        row.without(self.joining.first).without(self.joining.second)
    }

    // The two are out, and the new one is in if either was.
    fn moved(&self, row: Bits) -> Bits
        ensures { (x : ℕ) → bit result.word x ≡ ((bit row.word x && not (joins self.now.joining.first self.now.joining.second x)) || (x == self.now.joining.into && (bit row.word self.now.joining.first || bit row.word self.now.joining.second))) }
    {
        let new = Bits::none().with(self.joining.into).when(
            row.has(self.joining.first) || row.has(self.joining.second),
        );
        self.without_both(row).or(new)
    }
}

impl Regrouping for JoinInRange {
    ghost side_of = { λ j. j.joining.side };

    ghost regrouped = { λ j. joined_side j.joining.first j.joining.second j.joining.into };

    ghost ruled = { λ j. tree_joined j.joining };

    ghost too_long = { λ _ _. false };

    fn side(&self) -> Side {
        self.joining.side
    }

    fn standing<R: Reading>(&self, before: &SideRows<R>) -> Bits {
        self.without_both(before.standing()).with(self.joining.into)
    }

    fn members<R: Reading>(&self, before: &SideRows<R>, y: u8) -> Bits {
        let kept = before.members(y).when(!self.joins(y));
        let either = before
            .members(self.joining.first)
            .or(before.members(self.joining.second));
        kept.or(either.when(y == self.joining.into))
    }

    fn below<R: Reading>(&self, before: &SideRows<R>, y: u8) -> Bits {
        let kept = self.moved(before.below(y)).when(!self.joins(y));
        let either = before
            .below(self.joining.first)
            .or(before.below(self.joining.second));
        let gained = self.without_both(either).when(y == self.joining.into);
        kept.or(gained).without(y)
    }

    fn rule(&self, rule: &Rule) -> Option<Rule> {
        rule.joined(self.joining)
    }

    ghost keeps_range = { λ j S r. join-range j.joining.first j.joining.second j.joining.into S r j.into_low };
}
