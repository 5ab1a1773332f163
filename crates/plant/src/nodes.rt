ghost use Rattle.std.specs.Prelude.{◌≡◌};

use rules::bytes::NodeBytes;

// Four numbers, as a node comes in a call: any bytes.

/// A node of four bytes.
pub fn node(tag: u8, kind: u8, number: u8, mark: u8) -> NodeBytes
    ensures { result ≡ record { tag = tag; kind = kind; number = number; mark = mark } }
{
    NodeBytes {
        tag,
        kind,
        number,
        mark,
    }
}
