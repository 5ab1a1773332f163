use answers::everyone::who;
use answers::one::may;
use answers::validity::{Invalid, validity};
use model::reading::Reading;
use plant::nodes::node;
use plant::show::Shown;
use rules::bytes::NodeBytes;
use rules::rule::Rule;
use std::io;

// Reads a node list into a rule, and prints the rule with its people, and whether actor 0 is one of them.
fn ask<R: Reading>(rt: &HostRuntime, reading: &R, list: &[NodeBytes]) -> io::Result<()> {
    match Rule::read(list) {
        Ok(rule) => {
            let people = Shown {
                set: who(reading, &rule),
            };
            let count = people.set.count();
            let may = may(reading, &rule, 0);
            println!(rt; "  {rule}: {people}, {count} in all; actor 0: {may}")?;
            match validity(reading, &rule) {
                Ok(_) => Ok(()),
                Err(Invalid::Absent(place)) => println!(rt;
                    "    not valid: node {place} names what does not stand"
                ),
                Err(Invalid::Nobody) => println!(rt; "    not valid: nobody qualifies"),
            }
        }
        Err(fault) => {
            let numbers = fault.numbers(255);
            println!(rt; "  refused {numbers}")
        }
    }
}

/// Prints who qualifies for some rules.
pub(crate) fn ask_rules<R: Reading>(rt: &HostRuntime, reading: &R) -> io::Result<()> {
    println!(rt; "Who qualifies:")?;
    ask(rt, reading, &[node(0, 1, 0, 0)])?;
    ask(rt, reading, &[node(0, 1, 0, 1)])?;
    ask(
        rt,
        reading,
        &[node(0, 1, 1, 0), node(0, 2, 1, 0), node(2, 0, 0, 0)],
    )?;
    ask(rt, reading, &[node(1, 2, 1, 0)])?;
    ask(rt, reading, &[node(1, 2, 0, 1)])?;
    ask(
        rt,
        reading,
        &[node(0, 1, 1, 0), node(1, 2, 2, 1), node(2, 0, 0, 0)],
    )?;
    ask(
        rt,
        reading,
        &[node(0, 0, 3, 0), node(0, 1, 7, 0), node(3, 0, 0, 0)],
    )?;
    ask(rt, reading, &[node(0, 0, 3, 1)])
}
