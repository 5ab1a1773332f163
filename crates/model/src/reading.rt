ghost use Rattle.std.specs.Prelude.{◌≡◌, ℕ};
ghost use Rattle.bits.specs.Bit.{bit};
ghost use Rattle.model.specs.Facts.{Facts, OnlyPossible};

use crate::fact::Fact;
use bits::Bits;

/// What answers questions about facts, from a set of possible facts that no question changes.
pub trait Reading {
    // The set of facts that the reading means.
    ghost held: { Self → Facts };

    /// Whether the fact is in the set.
    fn holds(&self, fact: Fact) -> bool
        ensures { result ≡ held self.now fact.sort fact.x fact.y };

    // Sorts stay numbers: a reading is asked with any bytes.

    /// The numbers x of the facts in the set that have this sort and this y.
    fn row(&self, sort: u8, y: u8) -> Bits
        ensures { (x : ℕ) → bit result.word x ≡ held self.now sort x y }
    {
        let mut row = Bits::none();
        for x in 0..64u8 {
            if self.holds(Fact { sort, x, y }) {
                row = row.with(x);
            }
        }
        row
    }

    // Only possible facts are in the set.
    ghost only_possible: { (reading : Self) → OnlyPossible (held reading) };
}
