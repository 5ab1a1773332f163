ghost use Rattle.std.specs.Prelude.{◌≡◌, ℕ};
ghost use Rattle.board.specs.Holding.{facts_of};
ghost use Rattle.drafts.specs.Sided.{sided, with_side};

use board::Board;
use model::reading::Reading;
use model::side::Side;

/// Makes the board hold, of one side, what the reading holds.
pub(crate) fn replace_side<R: Reading>(board: &mut Board, side: Side, from: &R)
    ensures { (s x y : ℕ) → facts_of board.new s x y ≡ with_side (facts_of board.old) side (sided (R.Reading.held from.now) side) s x y }
{
    board.set_row(side.stands_sort(), 0, from.row(side.stands_sort(), 0));
    for y in 0..64u8 {
        board.set_row(side.has_sort(), y, from.row(side.has_sort(), y));
        board.set_row(side.under_sort(), y, from.row(side.under_sort(), y));
    }
}
