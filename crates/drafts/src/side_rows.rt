ghost use Rattle.std.specs.Prelude.{◌≡◌, ℕ};
ghost use Rattle.bits.specs.Bit.{bit};
ghost use Rattle.drafts.specs.Sided.{sided};

use bits::Bits;
use model::reading::Reading;
use model::side::Side;

// It has no `Model`: its value would be functions, and a function has no code.

/// The facts that a reading holds of one side, roles or units, row by row.
#[derive(Drop)]
pub(crate) struct SideRows<'a, R> {
    pub(crate) reading: &'a R,
    pub(crate) side: Side,
}

impl<'a, R: Reading> SideRows<'a, R> {
    /// What stands.
    pub(crate) fn standing(&self) -> Bits
        ensures { (x : ℕ) → bit result.word x ≡ (sided (R.Reading.held self.now.reading.now) self.now.side).stands x }
    {
        self.reading.row(self.side.stands_sort(), 0)
    }

    /// The actors that have, or belong to, y.
    pub(crate) fn members(&self, y: u8) -> Bits
        ensures { (a : ℕ) → bit result.word a ≡ (sided (R.Reading.held self.now.reading.now) self.now.side).has a y }
    {
        self.reading.row(self.side.has_sort(), y)
    }

    /// What is directly below y.
    pub(crate) fn below(&self, y: u8) -> Bits
        ensures { (x : ℕ) → bit result.word x ≡ (sided (R.Reading.held self.now.reading.now) self.now.side).under x y }
    {
        self.reading.row(self.side.under_sort(), y)
    }
}
