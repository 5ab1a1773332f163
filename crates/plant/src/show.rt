use bits::Bits;
use std::fmt;

/// A set as people write it: `{0,2}`, or `none`.
#[derive(Clone, Copy)]
pub struct Shown {
    pub set: Bits,
}

impl fmt::Display for Shown {
    fn fmt<W: fmt::Write>(&self, f: &mut fmt::Formatter<W>) -> fmt::Result {
        let mut before = '{';
        for number in self.set {
            write!(f, "{before}{number}")?;
            before = ',';
        }
        f.write_str(if self.set.is_empty() { "none" } else { "}" })
    }
}
