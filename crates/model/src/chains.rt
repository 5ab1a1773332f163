ghost use Rattle.std.specs.Prelude.{◌≡◌, ℕ, Decides};
ghost use Rattle.bits.specs.Bit.{bit};
ghost use Rattle.model.specs.Chains.{Below, Circle};
ghost use Rattle.model.specs.Facts.{OnlyPossible};

use crate::reading::Reading;
use crate::side::Side;
use bits::Bits;

/// The roles, or the units, that are below `top` by any chain.
pub fn all_below<R: Reading>(reading: &R, side: Side, top: u8) -> Bits
    ensures { (x : ℕ) → Decides (bit result.word x) (Below (R.Reading.held reading.now) side x top) }
{
    let mut found = reading.row(side.under_sort(), top);
    let mut done = Bits::none();
    // No `for`: what is found grows while it is gone through.
    while let Some(y) = found.minus(done).lowest() {
        found = found.or(reading.row(side.under_sort(), y));
        done = done.with(y);
    }
    found
}

/// Whether the hierarchy runs in a circle.
pub fn has_circle<R: Reading>(reading: &R, side: Side) -> bool
    ensures { Decides result (Circle (R.Reading.held reading.now) side) }
{
    (0..64u8).any(|x| all_below(reading, side, x).has(x))
}
