ghost use Rattle.std.specs.Prelude.{◌≡◌};
ghost use Rattle.board.specs.Holding.{facts_of};

use crate::rows::row_count;
use board::Board;
use model::reading::Reading;

/// Makes the board hold just what the reading holds, row by row.
pub fn load<R: Reading>(board: &mut Board, from: &R)
    ensures { facts_of board.new ≡ R.Reading.held from.now }
{
    for sort in 0..7u8 {
        for y in 0..row_count(sort) {
            board.set_row(sort, y, from.row(sort, y));
        }
    }
}
