use crate::draft::Draft;
use crate::step::{Entity, Join, Split, Step};
use board::Board;
use model::fact::Fact;
use model::reading::Reading;
use rules::book::Book;
use rules::bytes::NodeBytes;

fn empty() -> Draft {
    Draft {
        board: Board::new(),
        book: Book::new(),
    }
}

// The number, layer, slot and node of the refusal, or 0 where the step was taken.
fn refused(draft: &mut Draft, step: Step) -> (u8, u8, u8, u8) {
    match draft.step(step) {
        Ok(_) => (0, 0, 0, 0),
        Err(refusal) => {
            let numbers = refusal.numbers();
            (numbers.number, numbers.layer, numbers.slot, numbers.node)
        }
    }
}

fn add(kind: u8, number: u8) -> Step<'static> {
    Step::Add(Entity { kind, number })
}

fn link(sort: u8, x: u8, y: u8) -> Step<'static> {
    Step::Link(Fact { sort, x, y })
}

fn join(kind: u8, first: u8, second: u8, into: u8) -> Step<'static> {
    Step::Join(Join {
        kind,
        first,
        second,
        into,
    })
}

// A split with all actors, and all that is directly below, in the first share.
fn split(kind: u8, whole: u8, part1: u8, part2: u8, actors: u64, below: u64) -> Step<'static> {
    Step::Split(Split {
        kind,
        whole,
        part1,
        part2,
        actors1: actors,
        actors2: 0,
        below1: below,
        below2: 0,
    })
}

fn put<'a>(slot: u8, list: &'a [NodeBytes]) -> Step<'a> {
    Step::PutRule(slot, list)
}

fn role(number: u8) -> NodeBytes {
    NodeBytes {
        tag: 0,
        kind: 1,
        number,
        mark: 0,
    }
}

const AND: NodeBytes = NodeBytes {
    tag: 2,
    kind: 0,
    number: 0,
    mark: 0,
};

const TAKEN: (u8, u8, u8, u8) = (0, 0, 0, 0);

#[test]
fn join_that_closes_a_circle(rt: HostRuntime) {
    let mut draft = empty();
    assert_eq!(rt; refused(&mut draft, add(2, 0)), TAKEN);
    assert_eq!(rt; refused(&mut draft, add(2, 1)), TAKEN);
    assert_eq!(rt; refused(&mut draft, add(2, 4)), TAKEN);
    assert_eq!(rt; refused(&mut draft, link(6, 1, 0)), TAKEN);
    assert_eq!(rt; refused(&mut draft, link(6, 4, 1)), TAKEN);
    assert_eq!(rt; refused(&mut draft, join(2, 0, 4, 5)), (19, 2, 255, 255));
    assert_eq!(rt; refused(&mut draft, join(2, 0, 1, 5)), TAKEN);
    assert_eq!(rt; refused(&mut draft, link(6, 4, 5)), (16, 2, 255, 255));
}

#[test]
fn rule_of_29_nodes_split(rt: HostRuntime) {
    let a = AND;
    let r = role(2);
    let e = role(0);
    let once = [
        e, r, a, r, a, r, a, r, a, r, a, r, a, r, a, r, a, r, a, r, a, r, a, r, a, r, a, r, a,
    ];
    let mut twice = once;
    twice[1] = e;
    let mut draft = empty();
    assert_eq!(rt; refused(&mut draft, add(1, 0)), TAKEN);
    assert_eq!(rt; refused(&mut draft, put(0, &once)), TAKEN);
    assert_eq!(rt; refused(&mut draft, put(31, &twice)), TAKEN);
    assert_eq!(rt;
        refused(&mut draft, split(1, 0, 3, 4, 0, 0)),
        (21, 2, 31, 255)
    );
    assert_eq!(rt; refused(&mut draft, Step::RemoveRule(31)), TAKEN);
    assert_eq!(rt; refused(&mut draft, Step::RemoveRule(31)), (13, 2, 31, 255));
    assert_eq!(rt; refused(&mut draft, split(1, 0, 3, 4, 0, 0)), TAKEN);
}

#[test]
fn numbers_0_and_63(rt: HostRuntime) {
    let mut draft = empty();
    assert_eq!(rt; refused(&mut draft, add(0, 63)), TAKEN);
    assert_eq!(rt; refused(&mut draft, add(1, 0)), TAKEN);
    assert_eq!(rt; refused(&mut draft, add(1, 1)), TAKEN);
    assert_eq!(rt; refused(&mut draft, link(3, 63, 0)), TAKEN);
    assert_eq!(rt; refused(&mut draft, join(1, 0, 1, 64)), (2, 2, 255, 255));
    assert_eq!(rt; refused(&mut draft, join(1, 0, 1, 63)), TAKEN);
    assert!(rt;
        draft.board.holds(Fact {
            sort: 3,
            x: 63,
            y: 63,
        }),
        "actor 63 has role 63, which is no pair of a hierarchy"
    );
    assert_eq!(rt;
        refused(&mut draft, split(1, 63, 0, 1, 0, 0)),
        (20, 2, 255, 255)
    );
    assert_eq!(rt; refused(&mut draft, split(1, 63, 0, 1, 1 << 63, 0)), TAKEN);
    assert!(rt;
        draft.board.holds(Fact {
            sort: 3,
            x: 63,
            y: 0,
        })
    );
}
