ghost use Rattle.rules.specs.Refusals.{fault_numbers, numbers_text};
ghost use Rattle.std.specs.Prelude.{◌≡◌, Some};

use std::fmt;

/// What keeps a node list from being a rule.
#[derive(Clone, Copy, PartialEq, Eq, Debug)]
pub enum Fault {
    /// No nodes, or more than 31.
    Length,
    /// The node at this place has a forbidden field.
    Field(u8),
    /// At this place an operator has fewer than two trees before it, or the list ends in another number of trees than one.
    Shape(u8),
}

/// The four numbers that a refusal carries. 255 stands where there is no slot or no node.
#[derive(Clone, Copy, PartialEq, Eq, Debug)]
pub struct Numbers {
    pub number: u8,
    pub layer: u8,
    pub slot: u8,
    pub node: u8,
}

/// As in: 3 in layer 1, slot 0, node 2.
impl fmt::Display for Numbers {
    ghost output = { λ n. Some (numbers_text n) };

    fn fmt<W: fmt::Write>(&self, f: &mut fmt::Formatter<W>) -> fmt::Result {
        let Numbers {
            number,
            layer,
            slot,
            node,
        } = *self;
        write!(f, "{number} in layer {layer}, slot {slot}, node {node}")
    }
}

// The numbers are a table that callers know: they follow from no order of the variants.
impl Fault {
    /// The four numbers of the fault of a node list that was handed in for the slot.
    pub fn numbers(self, slot: u8) -> Numbers
        ensures { result ≡ fault_numbers slot self }
    {
        let (number, node) = match self {
            Fault::Length => (1, 255),
            Fault::Field(node) => (2, node),
            Fault::Shape(node) => (3, node),
        };
        Numbers {
            number,
            layer: 1,
            slot,
            node,
        }
    }
}
