ghost use Rattle.std.specs.Prelude.{◌≡◌, ℕ, ◌<◌, Some, None};
ghost use Rattle.drafts.specs.Slots.{slots_of, tree_in, written};
ghost use Rattle.drafts.specs.States.{state_of};
ghost use Rattle.drafts.specs.Steps.{Stepped};
ghost use Rattle.drafts.specs.Unmoved.{Unmoved};
ghost use Rattle.drafts.specs.declared.step.Step.TheVariants.{PutRule, RemoveRule};
ghost use Rattle.rules.specs.Rules.{rule_tree};

use crate::draft::Draft;
use crate::inputs::{checked_rule, checked_slot};
use crate::refusal::Refusal;
use rules::book::Book;
use rules::bytes::NodeBytes;
use rules::rule::Rule;

// Puts a rule into a slot that a book has, or empties it.
fn write_slot(book: &mut Book, slot: u8, rule: Option<Rule>)
    requires { slot < 32 }
    ensures { (i : ℕ) → slots_of book.new i ≡ written (slots_of book.old) slot (tree_in rule) i }
{
    match rule {
        Some(rule) => book.put(slot, rule),
        None => book.clear(slot),
    }
}

impl Draft {
    // The slot has the rule that the node list is.
    pub(crate) fn put_rule(&mut self, slot: u8, list: &[NodeBytes]) -> Result<(), Refusal>
        ensures stepped { Stepped (PutRule slot list.entry) (state_of self.old) result (state_of self.new) }
        ensures refused { Unmoved result self.old self.new }
    {
        let rule = checked_rule(slot, list)?;
        write_slot(&mut self.book, slot, Some(rule));
        Ok(())
    }

    // The slot is empty.
    pub(crate) fn remove_rule(&mut self, slot: u8) -> Result<(), Refusal>
        ensures stepped { Stepped (RemoveRule slot) (state_of self.old) result (state_of self.new) }
        ensures refused { Unmoved result self.old self.new }
    {
        checked_slot(slot)?;
        if self.book.rule(slot).is_none() {
            return Err(Refusal::Empty(slot));
        }
        write_slot(&mut self.book, slot, None);
        Ok(())
    }
}
