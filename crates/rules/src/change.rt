use model::side::Side;

// Beside the steps of a draft, which have any byte for the kind and shares: a rule knows its side, and no shares.

/// Two roles, or two units, are joined into one. The numbers may be any.
#[derive(Clone, Copy, PartialEq, Eq, Debug)]
pub struct Joining {
    pub side: Side,
    pub first: u8,
    pub second: u8,
    pub into: u8,
}

/// A role, or a unit, is split in two parts. The numbers may be any.
#[derive(Clone, Copy, PartialEq, Eq, Debug)]
pub struct Splitting {
    pub side: Side,
    pub whole: u8,
    pub part1: u8,
    pub part2: u8,
}
