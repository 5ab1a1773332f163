ghost use Rattle.std.specs.Prelude.{◌<◌};

use answers::everyone::who;
use answers::validity::first_absent;
use bits::Bits;
use board::Board;
use drafts::draft::Draft;
use drafts::step::Step;
use model::store::Store;
use plant::crews::{CREWS_JOIN, CREWS_PART};
use plant::facts::PLANT;
use plant::nodes::node;
use plant::show::Shown;
use rules::book::Book;
use std::{array, io};

// Takes the step, and prints the refusal where there is one.
fn take(rt: &HostRuntime, draft: &mut Draft, name: &str, step: Step) -> io::Result<()> {
    match draft.step(step) {
        Ok(_) => println!(rt; "  {name}: taken"),
        Err(refusal) => println!(rt; "  {name}: refused {refusal}"),
    }
}

// Prints each rule with its people, and whether all that the rules name stands.
fn tell_rules(rt: &HostRuntime, draft: &Draft) -> io::Result<()> {
    let mut all_stand = true;
    for (slot, rule) in draft.book.filled() {
        let people = Shown {
            set: who(&draft.board, rule),
        };
        println!(rt; "  slot {slot}: {rule}: {people}")?;
        all_stand &= first_absent(&draft.board, rule).is_none();
    }
    if all_stand {
        println!(rt; "  Every role and unit that a rule names stands.")
    } else {
        println!(rt; "  A rule names what does not stand.")
    }
}

// The people of every slot that has a rule.
fn people(draft: &Draft) -> [Option<Bits>; 32] {
    array::from_fn(
        |slot: usize| -> Option<Bits>
            requires { slot < 32 }
        {
            draft
                .book
                .rule(slot as u8)
                .map(|rule| who(&draft.board, rule))
        },
    )
}

/// Joins the two crews at noon and splits them again, and prints the rules with their people before and after.
pub(crate) fn tell_noon(rt: &HostRuntime) -> io::Result<()> {
    let mut board = Board::new();
    for fact in PLANT {
        board.put(fact);
    }
    let mut draft = Draft {
        board,
        book: Book::new(),
    };
    println!(rt;
        "Noon: units 1 and 2 are the early and the late crew; slot 0 has the rework rule, slot 5 the administrator's."
    )?;
    take(
        rt,
        &mut draft,
        "Rework is for role 1 of the early crew",
        Step::PutRule(0, &[node(0, 1, 1, 0), node(0, 2, 1, 0), node(2, 0, 0, 0)]),
    )?;
    take(
        rt,
        &mut draft,
        "Administration is for role 0 and those below, not of the late crew",
        Step::PutRule(5, &[node(0, 1, 0, 1), node(1, 2, 2, 0), node(2, 0, 0, 0)]),
    )?;
    tell_rules(rt, &draft)?;
    take(rt, &mut draft, "Units 1 and 2 become unit 3", CREWS_JOIN)?;
    tell_rules(rt, &draft)?;
    take(
        rt,
        &mut draft,
        "Units 1 and 2 become unit 3 again",
        CREWS_JOIN,
    )?;
    let before = people(&draft);
    take(rt, &mut draft, "Unit 3 becomes units 1 and 2", CREWS_PART)?;
    tell_rules(rt, &draft)?;
    let kept = people(&draft) == before;
    println!(rt; "  Every rule kept its people: {kept}")
}
