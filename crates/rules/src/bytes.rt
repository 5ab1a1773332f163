/// A node as it comes in a call: four bytes with any values.
#[derive(Clone, Copy, PartialEq, Eq, Debug)]
pub struct NodeBytes {
    pub tag: u8,
    pub kind: u8,
    pub number: u8,
    pub mark: u8,
}
