//! Builds the small plant in both stores, and prints what they answer and who qualifies for some rules. Then joins the two crews and splits them again.
#![tactic(auto)]

mod account;
mod noon;
mod questions;
#[cfg(test)]
mod tests;

use account::{ask_chains, ask_facts, close_circle, fill};
use board::Board;
use list::list::FactList;
use model::store::Store;
use noon::tell_noon;
use questions::ask_rules;
use std::io;

fn tell<S: Store>(rt: &HostRuntime, name: &str, store: &mut S) -> io::Result<()> {
    fill(rt, name, store)?;
    ask_facts(rt, store)?;
    ask_chains(rt, store)?;
    close_circle(rt, store)?;
    ask_rules(rt, store)
}

fn run(rt: &HostRuntime) -> io::Result<()> {
    println!(rt; "The plant: actors 0 to 3, roles 0 to 2 and units 0 to 2 stand.")?;
    println!(rt; "Roles 1 and 2 are directly below role 0, units 1 and 2 directly below unit 0.")?;
    println!(rt; "Actors 0 to 3 have roles 1, 2, 1, 0 and belong to units 1, 1, 2, 0.")?;
    let mut board = Board::new();
    tell(rt, "Bit board", &mut board)?;
    let mut words = [7u32; 24];
    tell(
        rt,
        "Fact list over 24 words",
        &mut FactList::new(&mut words),
    )?;
    println!(rt; "  The words are now {words:?}")?;
    let mut words = [7u32; 20];
    fill(
        rt,
        "Fact list over 20 words",
        &mut FactList::new(&mut words),
    )?;
    tell_noon(rt)
}

fn main(rt: HostRuntime) -> io::Result<()> {
    run(&rt)
}
