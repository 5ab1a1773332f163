ghost use Rattle.model.specs.Facts.{fact_word, possible};
ghost use Rattle.std.specs.Prelude.{◌≡◌};

/// A fact as it comes in a call: a sort and two numbers, with any bytes in them.
#[derive(Clone, Copy, PartialEq, Eq, Debug)]
pub struct Fact {
    pub sort: u8,
    pub x: u8,
    pub y: u8,
}

impl Fact {
    /// Whether there can be such a fact.
    pub fn is_possible(self) -> bool
        ensures { result ≡ possible self.sort self.x self.y }
    {
        self.sort < 7 && self.x < 64 && self.y < 64 && (self.sort >= 3 || self.y == 0)
    }

    // A method and no `From`: it is the format of the caller's words, and a public name.

    /// The number that stands for the fact in a list of facts.
    pub fn word(self) -> u32
        ensures { result ≡ fact_word self.sort self.x self.y }
    {
        self.sort as u32 * 4096 + self.x as u32 * 64 + self.y as u32
    }
}
