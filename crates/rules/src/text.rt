ghost use Rattle.std.specs.Prelude.{◌≡◌, ◌≤◌, length, Some, Decides};
ghost use Rattle.rules.specs.Parts.{Begins, OfTree, top};
ghost use Rattle.rules.specs.Text.{compound, in_parens, leaf_text, plus_text, rule_text, tree_text};
ghost use Rattle.std.specs.Fmt.{WritesOnOk};

use crate::node::{Leaf, Node};
use crate::rule::Rule;
use std::fmt;

fn plus_sign(plus: bool) -> &'static str
    ensures { result.now ≡ plus_text plus }
{
    if plus { "(+)" } else { "" }
}

impl fmt::Display for Leaf {
    ghost output = { λ l. Some (leaf_text l) };

    fn fmt<W: fmt::Write>(&self, f: &mut fmt::Formatter<W>) -> fmt::Result {
        match *self {
            Leaf::Actor(number) => write!(f, "Actor={number}"),
            Leaf::Group(side, number, plus) => {
                let sign = plus_sign(plus);
                write!(f, "{side}={number}{sign}")
            }
        }
    }
}

// Where the last tree of the list begins. From the end on, an operator wants one tree more, and a leaf is one that was wanted.
fn begin(list: &[Node]) -> usize
    ensures within { result ≤ length list.now }
    ensures begins { Begins list.now result }
{
    let mut wanted: usize = 1;
    let mut rest = list;
    while wanted > 0
        && let Some((node, before)) = rest.split_last()
    {
        if node.is_operator() {
            wanted += 1;
        } else {
            wanted -= 1;
        }
        rest = before;
    }
    rest.len()
}

// Whether the tree, given by its nodes, ends in this node.
fn ends_in(tree: &[Node], node: Node) -> bool
    ensures { OfTree tree.now (λ t. Decides result (top t ≡ node)) }
{
    tree.last() == Some(&node)
}

// Whether the tree, given by its nodes, is an AND or an OR.
fn is_compound(tree: &[Node]) -> bool
    ensures { OfTree tree.now (λ t. result ≡ compound t) }
{
    tree.last().is_some_and(|last| last.is_operator())
}

// Writes a tree, given by its nodes, in parentheses where they are wanted.
fn show<W: fmt::Write>(tree: &[Node], parens: bool, f: &mut fmt::Formatter<W>) -> fmt::Result
    ensures { OfTree tree.now (λ t. WritesOnOk W.write_str_gives f.old result (in_parens parens (tree_text t)) f.new) }
{
    if parens {
        f.write_str("(")?;
        show(tree, false, f)?;
        return f.write_str(")");
    }
    let Some((node, parts)) = tree.split_last() else {
        return Ok(());
    };
    let (left, right) = parts.split_at(begin(parts));
    match *node {
        Node::Is(leaf) => write!(f, "{leaf}"),
        Node::Not(leaf) => write!(f, "NOT {leaf}"),
        // Two arms: one for both would need a second match for the word and the other operator.
        Node::And => {
            show(left, ends_in(left, Node::Or), f)?;
            f.write_str(" AND ")?;
            show(right, is_compound(right), f)
        }
        Node::Or => {
            show(left, ends_in(left, Node::And), f)?;
            f.write_str(" OR ")?;
            show(right, is_compound(right), f)
        }
    }
}

impl fmt::Display for Rule {
    ghost output = { λ r. Some (rule_text r) };

    fn fmt<W: fmt::Write>(&self, f: &mut fmt::Formatter<W>) -> fmt::Result {
        show(self.nodes(), false, f)
    }
}
