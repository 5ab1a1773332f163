ghost use Rattle.std.specs.Prelude.{◌≡◌, true};
ghost use Rattle.rules.specs.NodeLists.{list_nodes};
ghost use Rattle.rules.specs.Scan.{one_rule};

use crate::node_list::NodeList;

/// An access rule: one complete tree of 1 to 31 nodes.
#[derive(Clone, Copy)]
pub struct Rule {
    pub(crate) list: NodeList,
    ghost whole: { one_rule (list_nodes list) ≡ true },
}
