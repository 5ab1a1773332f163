ghost use Rattle.std.specs.Prelude.{◌≡◌, map, Some, None, Ok, Err, MatchResult};
ghost use Rattle.std.specs.Result.{result_err};
ghost use Rattle.rules.specs.Bytes.{BytesExact, node_of};
ghost use Rattle.rules.specs.NodeLists.{list_nodes};
ghost use Rattle.rules.specs.Rules.{RulesAreTrees, rule_nodes};
ghost use Rattle.rules.specs.Scan.{AcceptsRules, bad_list, bad_shape, fault_of};
ghost use Rattle.rules.specs.Trees.{OneTree};

use crate::bytes::NodeBytes;
use crate::fault::Fault;
use crate::node::Node;
use crate::node_list::{MOST_NODES, NodeList};
use crate::rule::Rule;

// The nodes that the bytes stand for, or what keeps them from being nodes of a rule.
fn decoded(list: &[NodeBytes]) -> Result<NodeList, Fault>
    ensures { MatchResult result (λ nodes. (bad_list list.now ≡ None) × (list_nodes nodes ≡ map node_of list.now)) (λ fault. bad_list list.now ≡ Some fault) }
{
    if list.is_empty() || list.len() > MOST_NODES {
        return Err(Fault::Length);
    }
    let mut nodes = NodeList::new();
    for (i, bytes) in list.iter().enumerate() {
        let node = Node::try_from(*bytes).map_err(|_| Fault::Field(i as u8))?;
        nodes.push(node).ok_or(Fault::Length)?;
    }
    Ok(nodes)
}

// Whether the nodes are one tree.
fn one_tree(list: &NodeList) -> Result<(), Fault>
    ensures { result_err result ≡ bad_shape 0 0 (list_nodes list.now) }
{
    let nodes = list.as_slice();
    let mut trees: usize = 0;
    for (i, node) in nodes.iter().enumerate() {
        if node.is_operator() {
            if trees < 2 {
                return Err(Fault::Shape(i as u8));
            }
            trees -= 1;
        } else {
            trees += 1;
        }
    }
    if trees == 1 {
        Ok(())
    } else {
        Err(Fault::Shape(nodes.len() as u8))
    }
}

impl Rule {
    /// Reads a node list into a rule, or says what keeps it from being one.
    pub fn read(list: &[NodeBytes]) -> Result<Rule, Fault>
        ensures { elim result [ Ok v ↦ (fault_of list.now ≡ None) × (rule_nodes v ≡ map node_of list.now) | Err e ↦ fault_of list.now ≡ Some e ] }
    {
        let list = decoded(list)?;
        one_tree(&list)?;
        Ok(Rule { list })
    }

    /// The rule's nodes.
    pub fn nodes(&self) -> &[Node]
        ensures { result.now ≡ rule_nodes self.now }
    {
        self.list.as_slice()
    }
}

/// What the definitions say together: bytes are nodes, node lists are rules, and a rule is one tree.
pub fn lists_are_rules() -> u8
    ensures bytes { BytesExact }
    ensures accepted { AcceptsRules }
    ensures unique { OneTree }
    ensures trees { RulesAreTrees }
{
    0
}
