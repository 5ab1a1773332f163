ghost use Rattle.std.specs.Prelude.{◌≡◌, ℕ, Decides, if◌then◌else◌, nat_eq};
ghost use Rattle.board.specs.Holding.{facts_of};
ghost use Rattle.drafts.specs.Edited.{unless_too_long};
ghost use Rattle.drafts.specs.Sided.{side_changed};
ghost use Rattle.drafts.specs.Slots.{each_edited, edited, slots_of};
ghost use Rattle.model.specs.Chains.{Circle};

use crate::draft::Draft;
use crate::regrouped::Regrouped;
use crate::regrouping::Regrouping;
use crate::replace::replace_side;
use model::chains::has_circle;
use model::reading::Reading;
use rules::book::Book;

// Edits the rule in one slot, where it does not get too long.
fn edit_slot<C: Regrouping>(book: &mut Book, slot: u8, change: &C)
    ensures { (i : ℕ) → slots_of book.new i ≡ (if nat_eq i slot then edited (unless_too_long (C.too_long change.now) (C.ruled change.now)) (slots_of book.old i) else slots_of book.old i) }
{
    if let Some(rule) = book.rule(slot).and_then(|rule| change.rule(rule)) {
        book.put(slot, rule);
    }
}

// Edits the rule in every slot, where it does not get too long. Over slot numbers: a book is written by slot, and `filled` lends it out.
fn edit_rules<C: Regrouping>(book: &mut Book, change: &C)
    ensures { (i : ℕ) → slots_of book.new i ≡ each_edited (unless_too_long (C.too_long change.now) (C.ruled change.now)) (slots_of book.old) i }
{
    for slot in 0..32u8 {
        edit_slot(book, slot, change);
    }
}

impl Draft {
    /// Whether the hierarchy of the change's side would run in a circle.
    pub(crate) fn regrouping_circles<C: Regrouping>(&self, change: &C) -> bool
        ensures { Decides result (Circle (side_changed (C.side_of change.now) (C.regrouped change.now) (facts_of self.now.board)) (C.side_of change.now)) }
    {
        let after = Regrouped {
            reading: &self.board,
            change,
        };
        has_circle(&after, change.side())
    }

    /// Changes the model, and every rule that does not get too long.
    pub(crate) fn regroup<C: Regrouping>(&mut self, change: &C)
        ensures facts { (s x y : ℕ) → facts_of self.new.board s x y ≡ side_changed (C.side_of change.now) (C.regrouped change.now) (facts_of self.old.board) s x y }
        ensures rules { (i : ℕ) → slots_of self.new.book i ≡ each_edited (unless_too_long (C.too_long change.now) (C.ruled change.now)) (slots_of self.old.book) i }
    {
        let before = self.board;
        let after = Regrouped {
            reading: &before,
            change,
        };
        replace_side(&mut self.board, change.side(), &after);
        edit_rules(&mut self.book, change);
    }
}
