ghost use Rattle.model.specs.Sides.{SideOfKind, has_sort, side_text, stands_sort, under_sort};
ghost use Rattle.std.specs.Prelude.{◌≡◌, Some};

use std::fmt;

/// The two kinds of entity that have actors and a hierarchy.
#[derive(Clone, Copy, PartialEq, Eq, Debug)]
pub enum Side {
    Role,
    Unit,
}

// Sorts stay numbers: in every call to a reading they are bytes with any value.
impl Side {
    /// The sort of the facts that say which roles, or which units, stand.
    pub fn stands_sort(self) -> u8
        ensures { result ≡ stands_sort self }
    {
        match self {
            Side::Role => 1,
            Side::Unit => 2,
        }
    }

    /// The sort of the pairs of an actor and what it has or belongs to.
    pub fn has_sort(self) -> u8
        ensures { result ≡ has_sort self }
    {
        match self {
            Side::Role => 3,
            Side::Unit => 4,
        }
    }

    /// The sort of the pairs of the hierarchy.
    pub fn under_sort(self) -> u8
        ensures { result ≡ under_sort self }
    {
        match self {
            Side::Role => 5,
            Side::Unit => 6,
        }
    }
}

impl fmt::Display for Side {
    ghost output = { λ side. Some (side_text side) };

    fn fmt<W: fmt::Write>(&self, f: &mut fmt::Formatter<W>) -> fmt::Result {
        f.write_str(match self {
            Side::Role => "Role",
            Side::Unit => "Unit",
        })
    }
}

/// A kind is neither that of roles nor that of units.
#[derive(Clone, Copy, PartialEq, Eq, Debug)]
pub struct NoSide;

/// The side of the kind 1 or 2.
impl TryFrom<u8> for Side {
    type Error = NoSide;

    ghost try_from_gives = { SideOfKind };

    fn try_from(kind: u8) -> Result<Side, NoSide> {
        match kind {
            1 => Ok(Side::Role),
            2 => Ok(Side::Unit),
            _ => Err(NoSide),
        }
    }
}
