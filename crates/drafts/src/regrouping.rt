ghost use Rattle.std.specs.Prelude.{◌≡◌, ℕ, Bool, true, false, MatchOption};
ghost use Rattle.bits.specs.Bit.{bit};
ghost use Rattle.drafts.specs.SideFacts.{InRange};
ghost use Rattle.drafts.specs.Sided.{Sided, sided};
ghost use Rattle.model.specs.declared.side.Side.{Side};
ghost use Rattle.rules.specs.Rules.{rule_tree};
ghost use Rattle.rules.specs.Trees.{Tree};

use crate::side_rows::SideRows;
use bits::Bits;
use model::reading::Reading;
use model::side::Side;
use rules::rule::Rule;

/// A change of one side of a model and of all rules: a join or a split, whose numbers are in range.
pub(crate) trait Regrouping {
    // The side that changes.
    ghost side_of: { Self → Side };

    // What becomes of the facts of the side, and of a rule.
    ghost regrouped: { Self → Sided → Sided };

    ghost ruled: { Self → Tree → Tree };

    // The changed rule would have more than 31 nodes.
    ghost too_long: { Self → Tree → Bool };

    /// The side that changes.
    fn side(&self) -> Side
        ensures { result ≡ side_of self.now };

    /// What stands afterwards.
    fn standing<R: Reading>(&self, before: &SideRows<R>) -> Bits
        ensures { (x : ℕ) → bit result.word x ≡ (regrouped self.now (sided (R.Reading.held before.now.reading.now) before.now.side)).stands x };

    /// The actors that have, or belong to, y afterwards.
    fn members<R: Reading>(&self, before: &SideRows<R>, y: u8) -> Bits
        ensures { (a : ℕ) → bit result.word a ≡ (regrouped self.now (sided (R.Reading.held before.now.reading.now) before.now.side)).has a y };

    /// What is directly below y afterwards.
    fn below<R: Reading>(&self, before: &SideRows<R>, y: u8) -> Bits
        ensures { (x : ℕ) → bit result.word x ≡ (regrouped self.now (sided (R.Reading.held before.now.reading.now) before.now.side)).under x y };

    /// The changed rule. There is none where it would get too long.
    fn rule(&self, rule: &Rule) -> Option<Rule>
        ensures { MatchOption result (too_long self.now (rule_tree rule.now) ≡ true) (λ r. (too_long self.now (rule_tree rule.now) ≡ false) × (rule_tree r ≡ ruled self.now (rule_tree rule.now))) };

    // Numbers in range stay in range.
    ghost keeps_range: { (change : Self) (S : Sided) → InRange S → InRange (regrouped change S) };
}
