ghost use Rattle.std.specs.Prelude.{◌≡◌};
ghost use Rattle.rules.specs.Edits.{JoinsNodes, SplitsNodes, names, numbered};
ghost use Rattle.rules.specs.Changes.{Joins, Splits, leaf_joined, node_joined, node_split};
ghost use Rattle.rules.specs.NodeLists.{Appended};
ghost use Rattle.rules.specs.Rules.{rule_tree};

use crate::change::{Joining, Splitting};
use crate::node::{Leaf, Node};
use crate::node_list::NodeList;
use crate::rule::Rule;
use model::side::Side;

impl Leaf {
    // Whether the leaf names this role or unit.
    fn names(self, side: Side, number: u8) -> bool
        ensures { result ≡ names side number self }
    {
        match self {
            Leaf::Actor(_) => false,
            Leaf::Group(of, named, _) => of == side && named == number,
        }
    }

    // The leaf with another role or unit of its side.
    fn numbered(self, number: u8) -> Leaf
        ensures { result ≡ numbered self number }
    {
        match self {
            Leaf::Actor(_) => self,
            Leaf::Group(of, _, plus) => Leaf::Group(of, number, plus),
        }
    }

    fn joined(self, joining: Joining) -> Leaf
        ensures { result ≡ leaf_joined joining self }
    {
        let Joining {
            side,
            first,
            second,
            into,
        } = joining;
        if self.names(side, first) || self.names(side, second) {
            self.numbered(into)
        } else {
            self
        }
    }
}

impl Node {
    pub(crate) fn joined(self, joining: Joining) -> Node
        ensures { result ≡ node_joined joining self }
    {
        match self {
            Node::Is(leaf) => Node::Is(leaf.joined(joining)),
            Node::Not(leaf) => Node::Not(leaf.joined(joining)),
            Node::And | Node::Or => self,
        }
    }

    // Puts what the split makes of the node at the end of the list, or says that there is no room, by `None` as the list does.
    pub(crate) fn split_into(self, splitting: Splitting, list: &mut NodeList) -> Option<()>
        ensures { Appended list.old (node_split splitting self) result list.new }
    {
        let Splitting {
            side,
            whole,
            part1,
            part2,
        } = splitting;
        match self {
            Node::Is(leaf) if leaf.names(side, whole) => list.extend(&[
                Node::Is(leaf.numbered(part1)),
                Node::Is(leaf.numbered(part2)),
                Node::Or,
            ]),
            // Who is not in the whole is in neither part.
            Node::Not(leaf) if leaf.names(side, whole) => list.extend(&[
                Node::Not(leaf.numbered(part1)),
                Node::Not(leaf.numbered(part2)),
                Node::And,
            ]),
            _ => list.push(self),
        }
    }
}

impl Rule {
    /// The rule after two roles, or two units, are joined into one. There is none where the new number is past 63.
    pub fn joined(&self, joining: Joining) -> Option<Rule>
        ensures { Joins joining (rule_tree self.now) result }
    {
        if joining.into >= 64 {
            return None;
        }
        Some(Rule {
            list: self.list.joined(joining),
        })
    }

    /// The rule after a role or a unit is split in two: what named the whole names either part, and under NOT neither. There is none where a
    /// part's number is past 63 or the rule would have more than 31 nodes.
    pub fn split(&self, splitting: Splitting) -> Option<Rule>
        ensures { Splits splitting (rule_tree self.now) result }
    {
        if splitting.part1 >= 64 || splitting.part2 >= 64 {
            return None;
        }
        let list = self.list.split(splitting)?;
        Some(Rule { list })
    }
}

/// What the definitions say together: the node list of a joined or split rule is the rule's, joined or split node by node.
pub fn lists_follow_trees() -> u8
    ensures joins { JoinsNodes }
    ensures splits { SplitsNodes }
{
    0
}
