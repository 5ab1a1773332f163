use model::fact::Fact;
use rules::bytes::NodeBytes;

/// An actor, a role or a unit as it comes in a call.
#[derive(Clone, Copy)]
pub struct Entity {
    pub kind: u8,
    pub number: u8,
}

/// A pair (x, y) that becomes (x, z).
#[derive(Clone, Copy)]
pub struct Relink {
    pub sort: u8,
    pub x: u8,
    pub y: u8,
    pub z: u8,
}

/// Two roles, or two units, that become one.
#[derive(Clone, Copy)]
pub struct Join {
    pub kind: u8,
    pub first: u8,
    pub second: u8,
    pub into: u8,
}

/// A role, or a unit, that becomes two, with the shares of its actors and of what is directly below it.
#[derive(Clone, Copy)]
pub struct Split {
    pub kind: u8,
    pub whole: u8,
    pub part1: u8,
    pub part2: u8,
    pub actors1: u64,
    pub actors2: u64,
    pub below1: u64,
    pub below2: u64,
}

/// One edit of a draft. All numbers are bytes as they come in.
#[derive(Clone, Copy)]
pub enum Step<'a> {
    Add(Entity),
    Remove(Entity),
    Link(Fact),
    Unlink(Fact),
    Relink(Relink),
    Join(Join),
    Split(Split),
    PutRule(u8, &'a [NodeBytes]),
    RemoveRule(u8),
}
