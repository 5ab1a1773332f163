use bits::Bits;
use model::chains::{all_below, has_circle};
use model::fact::Fact;
use model::reading::Reading;
use model::side::Side;
use model::store::Store;
use plant::facts::PLANT;
use plant::show::Shown;
use std::io;

// Puts the plant's facts into the store, and says how many were taken.
fn build<S: Store>(store: &mut S) -> usize {
    let mut taken: usize = 0;
    for fact in PLANT {
        if store.put(fact) {
            taken = taken.saturating_add(1);
        }
    }
    taken
}

fn shown(set: Bits) -> Shown {
    Shown { set }
}

/// Builds the plant in the store, and prints how that went.
pub(crate) fn fill<S: Store>(rt: &HostRuntime, name: &str, store: &mut S) -> io::Result<()> {
    let taken = build(store);
    let count = store.count();
    let capacity = store.capacity();
    println!(rt; "{name}: {taken} facts were taken; it holds {count} of at most {capacity}.")
}

/// Prints what a reading answers about single facts and rows.
pub(crate) fn ask_facts<R: Reading>(rt: &HostRuntime, reading: &R) -> io::Result<()> {
    let has = reading.holds(Fact {
        sort: 3,
        x: 0,
        y: 1,
    });
    println!(rt; "  Actor 0 has role 1: {has}")?;
    let has = reading.holds(Fact {
        sort: 3,
        x: 0,
        y: 2,
    });
    println!(rt; "  Actor 0 has role 2: {has}")?;
    let has = reading.holds(Fact {
        sort: 3,
        x: 64,
        y: 1,
    });
    println!(rt; "  Actor 64 has role 1, which is no possible fact: {has}")?;
    let row = shown(reading.row(0, 0));
    println!(rt; "  Actors that stand: {row}")?;
    let row = shown(reading.row(3, 1));
    println!(rt; "  Actors that have role 1: {row}")?;
    let row = shown(reading.row(4, 1));
    println!(rt; "  Actors that belong to unit 1: {row}")?;
    let row = shown(reading.row(5, 0));
    println!(rt; "  Roles directly below role 0: {row}")
}

/// Prints what a reading answers about its hierarchies.
pub(crate) fn ask_chains<R: Reading>(rt: &HostRuntime, reading: &R) -> io::Result<()> {
    let below = shown(all_below(reading, Side::Unit, 0));
    println!(rt; "  Units below unit 0 by any chain: {below}")?;
    let below = shown(all_below(reading, Side::Unit, 1));
    println!(rt; "  Units below unit 1 by any chain: {below}")?;
    let roles = has_circle(reading, Side::Role);
    let units = has_circle(reading, Side::Unit);
    println!(rt; "  The roles run in a circle: {roles}; the units: {units}")
}

/// Puts a pair that closes a circle, asks again, and takes the pair out.
pub(crate) fn close_circle<S: Store>(rt: &HostRuntime, store: &mut S) -> io::Result<()> {
    let pair = Fact {
        sort: 6,
        x: 0,
        y: 2,
    };
    let taken = store.put(pair);
    println!(rt; "  Unit 0 put below unit 2: taken {taken}")?;
    ask_chains(rt, store)?;
    store.drop_fact(pair);
    let count = store.count();
    println!(rt; "  The pair is dropped again; {count} facts are held.")
}
