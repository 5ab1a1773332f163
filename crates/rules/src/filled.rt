ghost use Rattle.std.specs.Prelude.{◌+◌, ◌≤◌, length};

use crate::rule::Rule;

/// The slots of a book that hold a rule, ascending, each with its rule.
#[derive(Drop)]
pub struct Filled<'a> {
    pub(crate) rest: &'a [Option<Rule>],
    pub(crate) slot: u8,
    ghost within: { slot + length rest.now ≤ 32 },
}

impl<'a> Iterator for Filled<'a> {
    ghost use Rattle.rules.specs.Filled.{filled_left, slot_and_rule};
    ghost use Rattle.std.specs.Iterator.{YieldsFirstBy, item_count};

    type Item = (u8, &'a Rule);

    ghost next_gives = { YieldsFirstBy slot_and_rule filled_left };

    ghost remaining = { item_count filled_left };

    // The slot is counted here: `enumerate` counts in usize, and a slot is a byte.
    fn next(&mut self) -> Option<(u8, &'a Rule)> {
        while let Some((held, rest)) = self.rest.split_first() {
            let slot = self.slot;
            self.rest = rest;
            self.slot += 1;
            if let Some(rule) = held {
                return Some((slot, rule));
            }
        }
        None
    }
}
