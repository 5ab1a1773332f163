ghost use Rattle.std.specs.Prelude.{◌≡◌, ℕ};
ghost use Rattle.bits.specs.Bit.{bit};
ghost use Rattle.model.specs.Sides.{actor_stands};

use bits::Bits;
use model::fact::Fact;
use model::reading::Reading;

// Not one function in model for all that asks what stands: it would be a new public call that only wraps `holds`.

// Whether the actor stands.
pub(crate) fn stands<R: Reading>(reading: &R, actor: u8) -> bool
    ensures { result ≡ actor_stands (R.Reading.held reading.now) actor }
{
    reading.holds(Fact {
        sort: 0,
        x: actor,
        y: 0,
    })
}

// The actors that stand.
pub(crate) fn standing<R: Reading>(reading: &R) -> Bits
    ensures { (a : ℕ) → bit result.word a ≡ actor_stands (R.Reading.held reading.now) a }
{
    reading.row(0, 0)
}
