ghost use Rattle.std.specs.Prelude.{◌<◌};

use model::side::Side;

/// What a pair says: that an actor has a role or belongs to a unit, or that one role or unit is directly below another.
#[derive(Clone, Copy, PartialEq, Eq, Debug)]
pub(crate) enum PairSort {
    Has(Side),
    Under(Side),
}

/// A pair that can be.
#[derive(Clone, Copy)]
pub(crate) struct Pair {
    pub(crate) sort: PairSort,
    pub(crate) x: u8,
    pub(crate) y: u8,
    ghost lower: { x < 64 },
    ghost upper: { y < 64 },
}

/// A pair that gives way to another of its sort.
#[derive(Clone, Copy)]
pub(crate) struct Exchange {
    pub(crate) old: Pair,
    pub(crate) new: Pair,
}
