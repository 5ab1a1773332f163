ghost use Rattle.std.specs.Prelude.{◌≡◌, ◌≤◌};
ghost use Rattle.model.specs.Sizes.{size};
ghost use Rattle.transfer.specs.Contents.{content, writing};
ghost use Rattle.transfer.specs.Exact.{FittingModelIsHeld};
ghost use Rattle.transfer.specs.Orders.{AscendsByWord, written_out};

use crate::pass::{Drops, Puts, visit_all};
use model::reading::Reading;
use model::store::Store;

/// Makes the store hold what the model holds: first what the model lacks is dropped, ascending by fact word, then what the store lacks is put,
/// ascending. A model for which there is room is then held whole, and nothing else. Where there is none, puts are turned down and the rest goes on.
pub fn write_out<S: Store, R: Reading>(store: &mut S, model: &R)
    ensures written { content S.Reading S.Store.own store.new ≡ written_out (writing S.Store.own) (R.Reading.held model.now) (content S.Reading S.Store.own store.old) }
    ensures exact { size (R.Reading.held model.now) ≤ S.Store.capacity store.old → S.Reading.held store.new ≡ R.Reading.held model.now }
{
    visit_all::<Drops, S, R>(store, model);
    visit_all::<Puts, S, R>(store, model);
}

/// What the definitions say together: a model that fits is written whole, and the order is ascending by fact word.
pub fn writing_is_exact() -> u8
    ensures fitting { FittingModelIsHeld }
    ensures order { AscendsByWord }
{
    0
}
