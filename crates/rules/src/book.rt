ghost use Rattle.rules.specs.Books.{emptied, filled, slot_rule};
ghost use Rattle.rules.specs.Filled.{filled_left, filled_slots};
ghost use Rattle.std.specs.Prelude.{◌≡◌, ℕ, ◌==◌, ◌&&◌, if◌then◌else◌, Some, None, nat_lt};

use crate::filled::Filled;
use crate::rule::Rule;

// How many slots a book has.
const SLOTS: usize = 32;

/// A book of rules: slots 0 to 31, each empty or with one rule.
#[derive(Clone, Copy)]
pub struct Book {
    slots: [Option<Rule>; SLOTS],
}

impl Book {
    /// A book with every slot empty.
    pub fn new() -> Book
        ensures { (i : ℕ) → slot_rule result i ≡ None }
    {
        Book {
            slots: [None; SLOTS],
        }
    }

    /// The rule in the slot. There is none past slot 31.
    pub fn rule(&self, slot: u8) -> Option<&Rule>
        ensures { elim result [ Some p ↦ slot_rule self.now slot ≡ Some p.now | None ↦ slot_rule self.now slot ≡ None ] }
    {
        self.slots.get(usize::from(slot))?.as_ref()
    }

    // By index. Past slot 31 nothing happens. `get_mut` was tried: it does not say what the slots are after the write, and the clause stayed open.
    fn set(&mut self, slot: u8, rule: Option<Rule>)
        ensures { (i : ℕ) → slot_rule self.new i ≡ (if i == slot && nat_lt slot 32 then rule else slot_rule self.old i) }
    {
        let slot = usize::from(slot);
        if slot < SLOTS {
            self.slots[slot] = rule;
        }
    }

    /// Puts a rule into the slot, empty or not. Past slot 31 nothing happens.
    pub fn put(&mut self, slot: u8, rule: Rule)
        ensures { (i : ℕ) → slot_rule self.new i ≡ filled (slot_rule self.old) slot rule i }
    {
        self.set(slot, Some(rule));
    }

    /// Empties the slot.
    pub fn clear(&mut self, slot: u8)
        ensures { (i : ℕ) → slot_rule self.new i ≡ emptied (slot_rule self.old) slot i }
    {
        self.set(slot, None);
    }

    /// The slots that hold a rule, ascending, each with its rule.
    pub fn filled(&self) -> Filled<'_>
        ensures { filled_left result ≡ filled_slots self.now }
    {
        Filled {
            rest: &self.slots,
            slot: 0,
        }
    }
}
