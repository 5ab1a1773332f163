ghost use Rattle.std.specs.Prelude.{◌≡◌, ℕ, ◌≤◌, true, false, not, ◌&&◌, List, if◌then◌else◌};
ghost use Rattle.model.specs.Facts.{placed};
ghost use Rattle.model.specs.Sizes.{size, takes};

use crate::fact::Fact;
use crate::reading::Reading;

/// A reading that can be written.
pub trait Store: Reading {
    // How many facts there is room for.
    ghost capacity: { Self → ℕ };

    // The caller's memory in which the store lies: which it is, and its words. A store that lies in none shows no words.
    ghost home: { Self → ℕ };

    ghost words: { Self → List ℕ };

    // What becomes of the words when a fact is written that was not there, and when one is erased that was.
    ghost written: { List ℕ → ℕ → ℕ → ℕ → List ℕ };

    ghost erased: { List ℕ → ℕ → ℕ → ℕ → List ℕ };

    /// How many facts there is room for.
    fn capacity(&self) -> usize
        ensures { result ≡ capacity self.now };

    /// How many facts are in the set, never more than there is room for.
    fn count(&self) -> usize
        ensures value { result ≡ size (Self.Reading.held self.now) }
        ensures within { result ≤ capacity self.now };

    /// Puts a fact into the set, and says whether it was taken. It is turned down, and the set stays as it is, if the fact is
    /// not possible, or if it is absent and there is no room.
    fn put(&mut self, fact: Fact) -> bool
        ensures answer { result ≡ takes (Self.Reading.held self.old) (capacity self.old) fact.sort fact.x fact.y }
        ensures set { Self.Reading.held self.new ≡ (if result then placed (Self.Reading.held self.old) fact.sort fact.x fact.y true else Self.Reading.held self.old) }
        ensures words { words self.new ≡ (if result && not (Self.Reading.held self.old fact.sort fact.x fact.y) then written (words self.old) fact.sort fact.x fact.y else words self.old) }
        ensures capacity { capacity self.new ≡ capacity self.old }
        ensures home { home self.new ≡ home self.old };

    /// Takes a fact out of the set, if it is there.
    fn drop_fact(&mut self, fact: Fact)
        ensures set { Self.Reading.held self.new ≡ placed (Self.Reading.held self.old) fact.sort fact.x fact.y false }
        ensures words { words self.new ≡ (if Self.Reading.held self.old fact.sort fact.x fact.y then erased (words self.old) fact.sort fact.x fact.y else words self.old) }
        ensures capacity { capacity self.new ≡ capacity self.old }
        ensures home { home self.new ≡ home self.old };
}
