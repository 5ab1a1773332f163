use crate::change::{Account, carry_out, make_steps};
use crate::steps::plant_steps;
use crate::told::Foretold;
use drafts::step::Step;
use engine::engine::Engine;
use engine::refusal::Refusal;
use engine::ticket::Ticket;
use model::store::Store;
use plant::crews::CREWS_JOIN;
use plant::nodes::node;
use plant::show::Shown;
use std::io;

fn tell_refusal(rt: &HostRuntime, what: &str, refusal: Refusal) -> io::Result<()> {
    println!(rt; "  {what} is refused {refusal}.")
}

// Prints how a change went.
fn tell_change(rt: &HostRuntime, name: &str, went: Result<Account, Refusal>) -> io::Result<()> {
    let account = match went {
        Ok(account) => account,
        Err(refusal) => return tell_refusal(rt, "The opening", refusal),
    };
    println!(rt;
        "  Change {} of engine {}: {name}; steps taken: {}.",
        account.change, account.engine, account.taken
    )?;
    if let Some(refusal) = account.refused {
        tell_refusal(rt, "A step", refusal)?;
    }
    for (slot, preview) in account.previews.iter().enumerate() {
        if let Some(preview) = preview {
            let told = Foretold(*preview);
            println!(rt; "    slot {slot} {told}")?;
        }
    }
    match account.end {
        Err(refusal) => tell_refusal(rt, "The check", refusal),
        Ok(()) => println!(rt; "  It is cleared and released: true."),
    }
}

// Prints every released rule with its people.
fn tell_rules<S: Store>(rt: &HostRuntime, engine: &Engine<S>) -> io::Result<()> {
    for (slot, rule) in engine.book().filled() {
        if let Ok(set) = engine.set(slot) {
            let people = Shown { set };
            println!(rt; "    slot {slot}: {rule}: {people}")?;
        }
    }
    Ok(())
}

// A rule for which nobody qualifies: the check refuses it. It is taken out again, the change is cleared and reopened, and then withdrawn. Tells why the
// check refused, and whether the mended change was cleared and reopened; or nothing, where the check refused nothing.
fn try_rule_for_nobody<S: Store>(
    engine: &mut Engine<S>,
) -> Result<Option<(Refusal, bool)>, Refusal> {
    let ticket = engine.open()?;
    let nobody = [node(1, 2, 0, 1)];
    let _ = make_steps(engine, &ticket, &[Step::PutRule(7, &nobody)]);
    let (refusal, ticket) = match engine.check(ticket) {
        Ok(cleared) => {
            engine.withdraw(Ticket::Cleared(cleared))?;
            return Ok(None);
        }
        Err(refused) => refused,
    };
    let _ = make_steps(engine, &ticket, &[Step::RemoveRule(7)]);
    let left = match engine.check(ticket) {
        Ok(cleared) => engine
            .reopen(cleared)
            .map_err(|(_, back)| Ticket::Cleared(back)),
        Err((_, back)) => Err(Ticket::Open(back)),
    };
    match left {
        Ok(open) => {
            engine.withdraw(Ticket::Open(open))?;
            Ok(Some((refusal, true)))
        }
        Err(back) => {
            engine.withdraw(back)?;
            Ok(Some((refusal, false)))
        }
    }
}

/// Builds the plant through the engine, joins the two crews at noon, tries a rule for nobody, and prints the account.
pub(crate) fn tell_noon<S: Store + Drop>(rt: &HostRuntime, name: &str, store: S) -> io::Result<()> {
    let mut engine = Engine::new(store, 7);
    let told = tell_changes(rt, name, &mut engine);
    let _ = engine.into_store();
    told
}

fn tell_changes<S: Store>(rt: &HostRuntime, name: &str, engine: &mut Engine<S>) -> io::Result<()> {
    println!(rt; "Noon, over the {name}: units 1 and 2 are the early and the late crew.")?;
    let built = carry_out(engine, &plant_steps());
    tell_change(rt, "the plant is built", built)?;
    let rework = [node(0, 1, 1, 0), node(0, 2, 1, 0), node(2, 0, 0, 0)];
    let administration = [node(0, 1, 0, 1), node(1, 2, 2, 0), node(2, 0, 0, 0)];
    let rules = carry_out(
        engine,
        &[Step::PutRule(0, &rework), Step::PutRule(5, &administration)],
    );
    tell_change(
        rt,
        "rework in slot 0 is for role 1 of the early crew, administration in slot 5 for role 0 and those below, not of the late crew",
        rules,
    )?;
    tell_rules(rt, engine)?;
    let joined = carry_out(engine, &[CREWS_JOIN]);
    tell_change(rt, "units 1 and 2 become unit 3", joined)?;
    tell_rules(rt, engine)?;
    match try_rule_for_nobody(engine) {
        Ok(Some((refusal, mended))) => {
            println!(rt; "  A change puts a rule for nobody into slot 7.")?;
            tell_refusal(rt, "Its check", refusal)?;
            println!(rt;
                "  With the rule taken out it is cleared, reopened and withdrawn: {mended}."
            )?;
        }
        Ok(None) => println!(rt; "  The check of a rule for nobody refuses nothing.")?,
        Err(refusal) => tell_refusal(rt, "A call", refusal)?,
    }
    tell_rules(rt, engine)
}
