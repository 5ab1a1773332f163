ghost use Rattle.std.specs.Prelude.{◌≡◌};
ghost use Rattle.answers.specs.Qualify.{PairsSuffice, QualifiedStand};
ghost use Rattle.answers.specs.Refuted.{Judged};
ghost use Rattle.answers.specs.Validity.{NamesChecked, first_absent, name_stands, node_stands};
ghost use Rattle.rules.specs.Rules.{rule_nodes};

use crate::actors::stands;
use crate::everyone::who;
use bits::Bits;
use model::fact::Fact;
use model::reading::Reading;
use rules::node::{Leaf, Node};
use rules::rule::Rule;

/// Why a rule is not valid.
#[derive(Clone, Copy, PartialEq, Eq, Debug)]
pub enum Invalid {
    /// The node at this place names an entity that does not stand, and no node before it does.
    Absent(u8),
    /// Every name stands, and nobody qualifies.
    Nobody,
}

// Not one function in model for all that asks what stands: it would be a new public call that only wraps `holds`.
fn name_stands<R: Reading>(reading: &R, leaf: Leaf) -> bool
    ensures { result ≡ name_stands (R.Reading.held reading.now) leaf }
{
    match leaf {
        Leaf::Actor(actor) => stands(reading, actor),
        Leaf::Group(side, number, _) => reading.holds(Fact {
            sort: side.stands_sort(),
            x: number,
            y: 0,
        }),
    }
}

fn node_stands<R: Reading>(reading: &R, node: Node) -> bool
    ensures { result ≡ node_stands (R.Reading.held reading.now) node }
{
    match node {
        Node::Is(leaf) | Node::Not(leaf) => name_stands(reading, leaf),
        Node::And | Node::Or => true,
    }
}

/// The place of the first node that names an entity that does not stand.
pub fn first_absent<R: Reading>(reading: &R, rule: &Rule) -> Option<u8>
    ensures { result ≡ first_absent (R.Reading.held reading.now) 0 (rule_nodes rule.now) }
{
    rule.nodes()
        .iter()
        .position(|node| !node_stands(reading, *node))
        .map(|i| i as u8)
}

/// The set of those who qualify, if the rule is valid, or why it is not.
pub fn validity<R: Reading>(reading: &R, rule: &Rule) -> Result<Bits, Invalid>
    ensures { Judged (R.Reading.held reading.now) rule.now result }
{
    if let Some(place) = first_absent(reading, rule) {
        return Err(Invalid::Absent(place));
    }
    let set = who(reading, rule);
    if set.is_empty() {
        return Err(Invalid::Nobody);
    }
    Ok(set)
}

/// What the definitions say together: only standing actors qualify, where the ends of pairs stand the pair alone decides, and no first absent name
/// means that all names stand.
pub fn definitions_agree() -> u8
    ensures standing { QualifiedStand }
    ensures pairs { PairsSuffice }
    ensures names { NamesChecked }
{
    0
}
