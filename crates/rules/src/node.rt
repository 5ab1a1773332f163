ghost use Rattle.rules.specs.Trees.{operator};
ghost use Rattle.std.specs.Prelude.{◌≡◌};

use model::side::Side;

// Side, number and mark are not a struct of their own: they are taken apart wherever a leaf is read.

/// One entity, by which people are named: an actor; or those that have a role or belong to a unit, with those of every role or unit below it
/// where the last is true, the (+).
#[derive(Clone, Copy, PartialEq, Eq, Debug)]
pub enum Leaf {
    Actor(u8),
    Group(Side, u8, bool),
}

/// A node of a rule: a leaf, a leaf under NOT, or an operator on the two parts before it.
#[derive(Clone, Copy, PartialEq, Eq, Debug)]
pub enum Node {
    Is(Leaf),
    Not(Leaf),
    And,
    Or,
}

impl Node {
    /// Whether the node is AND or OR.
    pub fn is_operator(self) -> bool
        ensures { result ≡ operator self }
    {
        match self {
            Node::Is(_) | Node::Not(_) => false,
            Node::And | Node::Or => true,
        }
    }
}
