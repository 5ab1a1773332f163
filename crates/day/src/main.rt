//! Takes the small plant through a day with the engine, over both stores: changes one by one, with the noon join, and then a list of orders.
#![tactic(auto)]

mod change;
mod noon;
mod orders;
mod steps;
mod told;

use board::Board;
use list::list::FactList;
use noon::tell_noon;
use orders::tell_day;
use std::io;

fn main(rt: HostRuntime) -> io::Result<()> {
    tell_noon(&rt, "bit board", Board::new())?;
    let mut words = [7u32; 24];
    tell_noon(&rt, "fact list", FactList::new(&mut words))?;
    println!(rt; "  The words are now {words:?}")?;
    tell_day(&rt, "bit board", Board::new())?;
    let mut words = [7u32; 32];
    tell_day(&rt, "fact list", FactList::new(&mut words))
}
