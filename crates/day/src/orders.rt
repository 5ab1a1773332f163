use crate::steps::plant_steps;
use crate::told::Told;
use drafts::step::Step;
use engine::engine::Engine;
use engine::ticket::Ticket;
use law::order::{Answer, Order};
use law::run::run;
use model::store::Store;
use plant::crews::{CREWS_JOIN, CREWS_PART};
use rules::bytes::NodeBytes;
use std::io;

// Role=1 AND Unit=1.
static RULE: [NodeBytes; 3] = [
    NodeBytes {
        tag: 0,
        kind: 1,
        number: 1,
        mark: 0,
    },
    NodeBytes {
        tag: 0,
        kind: 2,
        number: 1,
        mark: 0,
    },
    NodeBytes {
        tag: 2,
        kind: 0,
        number: 0,
        mark: 0,
    },
];

const PUT_RULE: Step<'static> = Step::PutRule(0, &RULE);

// How many orders a day has, and the first one whose answer is told: those before it build the plant.
const ORDERS: usize = 46;

const FIRST_TOLD: usize = 23;

// What follows once the plant's steps are made.
const AFTER_PLANT: [Order<'static>; 23] = [
    Order::Step(0, PUT_RULE),
    Order::Release(0),
    Order::Check(0),
    Order::Step(0, CREWS_JOIN),
    Order::Release(0),
    Order::Set(0),
    Order::Open(1),
    Order::Step(1, CREWS_JOIN),
    Order::Preview(1, 0),
    Order::Set(0),
    Order::Check(1),
    Order::Open(0),
    Order::Release(1),
    Order::Set(0),
    Order::Open(0),
    Order::Step(0, CREWS_PART),
    Order::Check(0),
    Order::Reopen(0),
    Order::Check(0),
    Order::Release(0),
    Order::Set(0),
    Order::May(0, 2),
    Order::Withdraw(0),
];

// What a day brings: the plant with one rule is released; the crews are joined, and split again. Some orders find no ticket that they take.
fn orders_of_day() -> [Order<'static>; ORDERS] {
    // Into an array of fixed size: nothing is allocated in this repository, its programs included.
    let mut orders = [Order::Open(0); ORDERS];
    orders[1..FIRST_TOLD].copy_from_slice(&plant_steps().map(|step| Order::Step(0, step)));
    orders[FIRST_TOLD..].copy_from_slice(&AFTER_PLANT);
    orders
}

// Spends what is left in a place of the purse.
fn spend<S: Store>(engine: &mut Engine<S>, held: Option<Ticket>) {
    if let Some(ticket) = held {
        let _ = engine.withdraw(ticket);
    }
}

/// Runs the orders of a day with a purse of two places, and prints the answers from the first release on.
pub(crate) fn tell_day<S: Store + Drop>(rt: &HostRuntime, name: &str, store: S) -> io::Result<()> {
    let mut purse = [None, None];
    let mut answers = [Answer::NoCall; ORDERS];
    let mut engine = run(store, 9, &mut purse, &orders_of_day(), &mut answers);
    let [first, second] = purse;
    spend(&mut engine, first);
    spend(&mut engine, second);
    let _ = engine.into_store();
    println!(rt; "A day in orders, over the {name}; the answers from order 23 on:")?;
    for (i, answer) in answers.iter().enumerate().skip(FIRST_TOLD) {
        let told = Told(*answer);
        println!(rt; "  {i}: {told}")?;
    }
    Ok(())
}
