//! Sets of numbers from 0 to 63, each in one word.
#![tactic(auto)]

ghost use Rattle.std.specs.Prelude.{◌≡◌, ℕ, ◌^◌, ◌<◌, true, false, not, ◌&&◌, ◌||◌, Decides, MatchOption, ◌==◌, nat_lt};
ghost use Rattle.bits.specs.Bit.{bit};
ghost use Rattle.bits.specs.Members.{members};
ghost use Rattle.bits.specs.Total.{tally};
ghost use Rattle.std.specs.Iterator.{YieldsFirst, item_count};

/// A set of numbers from 0 to 63: bit k of the word says whether k is in it.
#[derive(Clone, Copy, PartialEq, Eq, Debug)]
pub struct Bits {
    pub word: u64,
}

impl Bits {
    /// The set of nothing.
    pub fn none() -> Bits
        ensures { (k : ℕ) → bit result.word k ≡ false }
    {
        Bits { word: 0 }
    }

    /// Whether `i` is in the set.
    pub fn has(self, i: u8) -> bool
        ensures { result ≡ bit self.word i }
    {
        i < 64 && (self.word >> i) & 1 == 1
    }

    /// The set with `i`, if a set can hold it.
    pub fn with(self, i: u8) -> Bits
        ensures { (k : ℕ) → bit result.word k ≡ (bit self.word k || (k == i && nat_lt i 64)) }
    {
        if i < 64 {
            Bits {
                word: self.word | (1 << i),
            }
        } else {
            self
        }
    }

    /// The set without `i`.
    pub fn without(self, i: u8) -> Bits
        ensures { (k : ℕ) → bit result.word k ≡ (bit self.word k && not (k == i)) }
    {
        if i < 64 {
            Bits {
                word: self.word & !(1 << i),
            }
        } else {
            self
        }
    }

    /// What is in both sets.
    pub fn and(self, other: Bits) -> Bits
        ensures { (k : ℕ) → bit result.word k ≡ (bit self.word k && bit other.word k) }
    {
        Bits {
            word: self.word & other.word,
        }
    }

    /// What is in either set.
    pub fn or(self, other: Bits) -> Bits
        ensures { (k : ℕ) → bit result.word k ≡ (bit self.word k || bit other.word k) }
    {
        Bits {
            word: self.word | other.word,
        }
    }

    /// What is in this set and not in the other.
    pub fn minus(self, other: Bits) -> Bits
        ensures { (k : ℕ) → bit result.word k ≡ (bit self.word k && not (bit other.word k)) }
    {
        Bits {
            word: self.word & !other.word,
        }
    }

    /// The set where it is wanted, and otherwise nothing.
    pub fn when(self, wanted: bool) -> Bits
        ensures { (k : ℕ) → bit result.word k ≡ (wanted && bit self.word k) }
    {
        if wanted { self } else { Bits::none() }
    }

    /// The lowest number in the set.
    pub fn lowest(self) -> Option<u8>
        ensures { MatchOption result ((k : ℕ) → bit self.word k ≡ false) (λ i. (bit self.word i ≡ true) × ((k : ℕ) → k < i → bit self.word k ≡ false)) }
    {
        if self.is_empty() {
            None
        } else {
            Some(self.word.trailing_zeros() as u8)
        }
    }

    /// Whether nothing is in the set.
    pub fn is_empty(self) -> bool
        ensures { Decides result ((k : ℕ) → bit self.word k ≡ false) }
    {
        self.word == 0
    }

    /// How many numbers are in the set.
    pub fn count(self) -> u32
        ensures { result ≡ tally (bit self.word) 64 }
    {
        self.word.count_ones()
    }
}

/// The numbers of a set that are still to come, ascending.
#[derive(Clone, Copy)]
pub struct Members {
    rest: Bits,
    ghost fits: { rest.word < 2 ^ 64 },
}

impl Iterator for Members {
    type Item = u8;

    ghost next_gives = { YieldsFirst (λ m. members m.rest.word) };

    ghost remaining = { item_count (λ m. members m.rest.word) };

    fn next(&mut self) -> Option<u8> {
        let lowest = self.rest.lowest()?;
        self.rest = self.rest.without(lowest);
        Some(lowest)
    }
}

impl IntoIterator for Bits {
    type Item = u8;

    type IntoIter = Members;

    ghost into_iter_gives = { λ set m. members m.rest.word ≡ members set.word };

    fn into_iter(self) -> Members {
        Members { rest: self }
    }
}

#[cfg(test)]
mod tests {
    use super::*;

    #[test]
    fn members(rt: HostRuntime) {
        let set = Bits::none().with(0).with(63).with(64).with(5).without(5);
        assert!(rt; set.has(0) && set.has(63) && !set.has(5) && !set.has(64));
        assert_eq!(rt; set.count(), 2);
        assert_eq!(rt; set.lowest(), Some(0));
        assert_eq!(rt; set.without(0).lowest(), Some(63));
        assert_eq!(rt; Bits::none().lowest(), None);
        assert_eq!(rt;
            set.minus(set).or(set).and(Bits::none().with(63)),
            Bits { word: 1 << 63 }
        );
    }
}
