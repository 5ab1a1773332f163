ghost use Rattle.engine.specs.Opening.{made};
ghost use Rattle.engine.specs.Views.{moment};
ghost use Rattle.law.specs.Ran.{Ran};
ghost use Rattle.transfer.specs.Contents.{content, writing};

use crate::calls::obey;
use crate::order::{Answer, Order};
use engine::engine::Engine;
use engine::ticket::Ticket;
use model::store::Store;

/// Makes an engine over the store, and then the calls that the orders name, with the tickets in the purse. Each order's answer goes into its place; as many orders
/// are obeyed as there is room for answers. An accepted opening lays its ticket into the free place that it names. Engine and purse are left to the caller.
pub fn run<S: Store>(
    store: S,
    number: u16,
    purse: &mut [Option<Ticket>],
    orders: &[Order],
    answers: &mut [Answer],
) -> Engine<S>
    ensures { Ran (writing S.Store.own) (record { engine = made (writing S.Store.own) (content S.Reading S.Store.own store) number; purse = purse.old }) orders.now answers.old (moment S.Reading S.Store.own result) purse.new answers.new }
{
    let mut engine = Engine::new(store, number);
    let n = orders.len().min(answers.len());
    // The answers lie beside the orders, in room that the caller lends, since nothing is allocated.
    // By index: `answers.iter_mut().zip(orders)` was tried, and after it the proof knows how many answers there are, and none of what was written.
    for i in 0..n {
        answers[i] = obey(&mut engine, purse, orders[i]);
    }
    engine
}
