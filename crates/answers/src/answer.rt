ghost use Rattle.std.specs.Prelude.{◌≡◌, ℕ, Bool, true, not, ◌&&◌, ◌||◌, Decides};
ghost use Rattle.answers.specs.Qualify.{InLeaf};
ghost use Rattle.bits.specs.Bit.{bit};
ghost use Rattle.model.specs.Facts.{Facts};
ghost use Rattle.model.specs.Sides.{actor_stands};
ghost use Rattle.std.specs.Int.Bits.{bit_and, bit_or, bit_xor};
ghost use Rattle.std.proofs.Common.{refl};
ghost use Rattle.bits.proofs.Laws.{bit-and, bit-or};
ghost use Rattle.answers.specs.Outside.{bit_outside};

use bits::Bits;
use rules::node::Leaf;

/// A kind of answer: a set of persons among those that a question asks about.
pub trait Answer: Sized {
    // Person a is in the answer.
    ghost isin: { Self → ℕ → Bool };

    ghost both: { Self → Self → Self };

    ghost either: { Self → Self → Self };

    // Those of the first that are outside the second.
    ghost outside: { Self → Self → Self };

    /// Those in both answers.
    fn and(self, other: Self) -> Self
        ensures { result ≡ both self other };

    /// Those in either answer.
    fn or(self, other: Self) -> Self
        ensures { result ≡ either self other };

    /// Those that stand and are not in the answer.
    fn not(self, standing: Self) -> Self
        ensures { result ≡ outside standing self };

    // In the AND means in both, in the OR means in either, in the NOT means standing and outside.
    ghost intersects: { (x y : Self) (a : ℕ) → isin (both x y) a ≡ (isin x a && isin y a) };

    ghost unites: { (x y : Self) (a : ℕ) → isin (either x y) a ≡ (isin x a || isin y a) };

    ghost excludes: { (standing x : Self) (a : ℕ) → isin (outside standing x) a ≡ (isin standing a && not (isin x a)) };
}

/// A question to a model, for one kind of answer.
pub trait Question<A: Answer> {
    // The facts that the question is put to.
    ghost facts: { Self → Facts };

    // The question asks about person a.
    ghost asks: { Self → ℕ → Bool };

    /// Those of the persons asked about who stand.
    fn standing(&self) -> A
        ensures { (a : ℕ) → asks self.now a ≡ true → A.Answer.isin result a ≡ actor_stands (facts self.now) a };

    /// Those of the persons asked about who are in the leaf's set.
    fn leaf(&self, leaf: Leaf) -> A
        ensures { (a : ℕ) → asks self.now a ≡ true → Decides (A.Answer.isin result a) (InLeaf (facts self.now) leaf a) };
}

/// Yes or no, about one person.
impl Answer for bool {
    ghost isin = { λ yes _. yes };

    ghost both = { ◌&&◌ };

    ghost either = { ◌||◌ };

    ghost outside = { λ standing yes. standing && not yes };

    ghost intersects = { λ x y a. refl };

    ghost unites = { λ x y a. refl };

    ghost excludes = { λ standing x a. refl };

    fn and(self, other: bool) -> bool {
        self & other
    }

    fn or(self, other: bool) -> bool {
        self | other
    }

    fn not(self, standing: bool) -> bool {
        standing & !self
    }
}

/// The set of all, bit a for actor a. Its methods `and` and `or` are called below, not the trait's.
impl Answer for Bits {
    ghost isin = { λ set. bit set.word };

    ghost both = { λ x y. record { word = bit_and x.word y.word } };

    ghost either = { λ x y. record { word = bit_or x.word y.word } };

    ghost outside = { λ standing x. record { word = bit_xor standing.word (bit_and standing.word x.word) } };

    ghost intersects = { λ x y a. bit-and x.word y.word a };

    ghost unites = { λ x y a. bit-or x.word y.word a };

    ghost excludes = { λ standing x. bit_outside standing.word x.word };

    fn and(self, other: Bits) -> Bits {
        self.and(other)
    }

    fn or(self, other: Bits) -> Bits {
        self.or(other)
    }

    fn not(self, standing: Bits) -> Bits {
        standing.minus(self)
    }
}
