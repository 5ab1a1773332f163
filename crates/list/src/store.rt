ghost use Rattle.std.specs.Prelude.{◌≡◌, ℕ, false};
ghost use Rattle.list.specs.OnlyPossible.{only_possible};
ghost use Rattle.list.specs.Words.{PlaceAmong, cleared, erased, listed, room, written};

use crate::list::FactList;
use crate::words::{FREE, clear, room_of};
use bits::Bits;
use model::fact::Fact;
use model::possible_fact::PossibleFact;
use model::reading::Reading;
use model::store::Store;

impl<'a> FactList<'a> {
    /// An empty list over the caller's words, whatever they hold. It uses at most the first 16,576.
    pub fn new(words: &'a mut [u32]) -> FactList<'a>
        ensures none { (s x y : ℕ) → listed result.words.now result.used s x y ≡ false }
        ensures words { result.words.now ≡ cleared words.old }
        ensures home { result.words.ghost_name ≡ words.entry.ghost_name }
    {
        clear(words);
        FactList { words, used: 0 }
    }

    // The place of the word, if it is a used one.
    fn place(&self, word: u32) -> Option<usize>
        ensures { PlaceAmong self.now.words.now self.now.used word result }
    {
        self.words[..self.used].iter().position(|w| *w == word)
    }
}

impl<'a> Reading for FactList<'a> {
    ghost held = { λ l. listed l.words.now l.used };

    fn holds(&self, fact: Fact) -> bool {
        fact.is_possible() && self.place(fact.word()).is_some()
    }

    fn row(&self, sort: u8, y: u8) -> Bits {
        let mut row = Bits::none();
        for w in &self.words[..self.used] {
            // Taken apart in place: an inverse of `word` would be one more public function, used here alone, and no plainer.
            if w / 4096 == sort as u32 && w % 64 == y as u32 {
                row = row.with((w / 64 % 64) as u8);
            }
        }
        row
    }

    ghost only_possible = { λ l. only_possible l.words.now l.used };
}

impl<'a> Store for FactList<'a> {
    ghost capacity = { λ l. room l.words.now };

    ghost home = { λ l. l.words.ghost_name };

    ghost words = { λ l. l.words.now };

    ghost written = { written };

    ghost erased = { erased };

    fn capacity(&self) -> usize {
        room_of(self.words)
    }

    fn count(&self) -> usize {
        self.used
    }

    fn put(&mut self, fact: Fact) -> bool {
        let Ok(fact) = PossibleFact::try_from(fact) else {
            return false;
        };
        let word = fact.fact.word();
        if self.place(word).is_some() {
            return true;
        }
        if self.used >= self.capacity() {
            return false;
        }
        self.words[self.used] = word;
        self.used += 1;
        true
    }

    // The last used word moves into the gap.
    fn drop_fact(&mut self, fact: Fact) {
        let Ok(fact) = PossibleFact::try_from(fact) else {
            return;
        };
        if let Some(i) = self.place(fact.fact.word()) {
            // Both fields at once: between two writes through `self` the words would break what the list keeps.
            let FactList { words, used } = self;
            let last = *used - 1;
            words[i] = words[last];
            words[last] = FREE;
            *used = last;
        }
    }
}
