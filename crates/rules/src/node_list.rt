ghost use Rattle.std.specs.Prelude.{◌≡◌, ◌≤◌, [], ◌∷◌, map};

use crate::change::{Joining, Splitting};
use crate::node::Node;

// The most nodes that a rule may have.
pub(crate) const MOST_NODES: usize = 31;

/// At most 31 nodes, in the first places of an array. It is not an ArrayVec, since a rule is Copy and an ArrayVec is not.
#[derive(Clone, Copy)]
pub(crate) struct NodeList {
    nodes: [Node; MOST_NODES],
    len: usize,
    ghost short: { len ≤ 31 },
}

impl NodeList {
    ghost use Rattle.rules.specs.Changes.{NodesSplit, node_joined};
    ghost use Rattle.rules.specs.NodeLists.{Appended, list_nodes};

    // No nodes.
    pub(crate) fn new() -> NodeList
        ensures { list_nodes result ≡ [] }
    {
        NodeList {
            nodes: [Node::And; MOST_NODES],
            len: 0,
        }
    }

    pub(crate) fn as_slice(&self) -> &[Node]
        ensures { result.now ≡ list_nodes self.now }
    {
        &self.nodes[..self.len]
    }

    // Puts the node at the end, or says by `None` that there is no room, the one way to fail: reading a list makes it `Fault::Length`, and a split that does not fit is `None` too.
    pub(crate) fn push(&mut self, node: Node) -> Option<()>
        ensures { Appended self.old (node ∷ []) result self.new }
    {
        if self.len >= MOST_NODES {
            return None;
        }
        self.nodes[self.len] = node;
        self.len += 1;
        Some(())
    }

    // Puts the nodes at the end, or says that there is no room for all.
    pub(crate) fn extend(&mut self, more: &[Node]) -> Option<()>
        ensures { Appended self.old more.now result self.new }
    {
        if more.len() > MOST_NODES - self.len {
            return None;
        }
        let end = self.len + more.len();
        self.nodes[self.len..end].copy_from_slice(more);
        self.len = end;
        Some(())
    }

    // The nodes after a join.
    pub(crate) fn joined(mut self, joining: Joining) -> NodeList
        ensures { list_nodes result ≡ map (node_joined joining) (list_nodes self) }
    {
        for node in &mut self.nodes {
            *node = node.joined(joining);
        }
        self
    }

    // The nodes after a split. There are none where they are more than 31.
    pub(crate) fn split(&self, splitting: Splitting) -> Option<NodeList>
        ensures { NodesSplit splitting (list_nodes self.now) result }
    {
        let mut list = NodeList::new();
        for node in self.as_slice() {
            node.split_into(splitting, &mut list)?;
        }
        Some(list)
    }
}
