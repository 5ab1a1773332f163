ghost use Rattle.std.specs.Prelude.{◌≡◌, ◌^◌, ◌<◌};

use bits::Bits;
use rules::change::{Joining, Splitting};

/// A join whose kind and numbers are in range.
#[derive(Clone, Copy)]
pub(crate) struct JoinInRange {
    pub(crate) joining: Joining,
    ghost into_low: { joining.into < 64 },
}

/// What a part gets of the whole: actors, and what is directly below.
#[derive(Clone, Copy)]
pub(crate) struct Share {
    pub(crate) actors: Bits,
    pub(crate) below: Bits,
    ghost actors_fit: { actors.word < 2 ^ 64 },
    ghost below_fit: { below.word < 2 ^ 64 },
}

/// A split whose kind and numbers are in range.
#[derive(Clone, Copy)]
pub(crate) struct SplitInRange {
    pub(crate) splitting: Splitting,
    pub(crate) share1: Share,
    pub(crate) share2: Share,
    ghost part1_low: { splitting.part1 < 64 },
    ghost part2_low: { splitting.part2 < 64 },
}
