ghost use Rattle.rules.specs.Bytes.{Decodes, allowed, leaf_of, node_of};
ghost use Rattle.std.specs.Prelude.{◌≡◌};

use crate::bytes::NodeBytes;
use crate::node::{Leaf, Node};
use model::side::Side;

impl NodeBytes {
    /// Whether a node may have these bytes.
    pub fn is_allowed(self) -> bool
        ensures { result ≡ allowed self }
    {
        if self.tag < 2 {
            self.kind < 3 && self.number < 64 && self.mark < 2 && (self.kind > 0 || self.mark == 0)
        } else {
            self.tag < 4 && self.kind == 0 && self.number == 0 && self.mark == 0
        }
    }

    fn leaf(self) -> Leaf
        ensures { result ≡ leaf_of self }
    {
        match self.kind {
            0 => Leaf::Actor(self.number),
            1 => Leaf::Group(Side::Role, self.number, self.mark == 1),
            _ => Leaf::Group(Side::Unit, self.number, self.mark == 1),
        }
    }

    /// The node that allowed bytes stand for.
    pub fn node(self) -> Node
        ensures { result ≡ node_of self }
    {
        match self.tag {
            0 => Node::Is(self.leaf()),
            1 => Node::Not(self.leaf()),
            2 => Node::And,
            _ => Node::Or,
        }
    }
}

/// A node has a forbidden field.
#[derive(Clone, Copy, PartialEq, Eq, Debug)]
pub struct ForbiddenField;

impl TryFrom<NodeBytes> for Node {
    type Error = ForbiddenField;

    ghost try_from_gives = { λ bytes read. Decodes bytes read };

    fn try_from(bytes: NodeBytes) -> Result<Node, ForbiddenField> {
        if bytes.is_allowed() {
            Ok(bytes.node())
        } else {
            Err(ForbiddenField)
        }
    }
}
