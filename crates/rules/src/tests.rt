use crate::book::Book;
use crate::bytes::NodeBytes;
use crate::fault::Fault;
use crate::rule::Rule;

fn leaf(number: u8) -> NodeBytes {
    NodeBytes {
        tag: 0,
        kind: 1,
        number,
        mark: 0,
    }
}

fn and() -> NodeBytes {
    NodeBytes {
        tag: 2,
        kind: 0,
        number: 0,
        mark: 0,
    }
}

// The number, layer, slot and node of the refusal, or 0 where the list is a rule.
fn refused(list: &[NodeBytes]) -> (u8, u8, u8, u8) {
    match Rule::read(list) {
        Ok(_) => (0, 0, 0, 0),
        Err(fault) => {
            let numbers = fault.numbers(255);
            (numbers.number, numbers.layer, numbers.slot, numbers.node)
        }
    }
}

#[test]
fn shapes(rt: HostRuntime) {
    assert_eq!(rt;
        refused(&[leaf(1), and()]),
        (3, 1, 255, 1),
        "a leaf and AND"
    );
    assert_eq!(rt; refused(&[leaf(1), leaf(2)]), (3, 1, 255, 2), "two leaves");
    assert_eq!(rt; refused(&[leaf(1), leaf(2), and()]), (0, 0, 0, 0));
    assert_eq!(rt; refused(&[]), (1, 1, 255, 255));
}

#[test]
fn fields(rt: HostRuntime) {
    assert_eq!(rt; refused(&[leaf(63)]), (0, 0, 0, 0));
    assert_eq!(rt; refused(&[leaf(64)]), (2, 1, 255, 0));
    assert_eq!(rt;
        refused(&[leaf(0), and(), leaf(64)]),
        (2, 1, 255, 2),
        "fields go before shape"
    );
}

#[test]
fn lengths(rt: HostRuntime) {
    let l = leaf(1);
    let a = and();
    let list = [
        l, l, a, l, a, l, a, l, a, l, a, l, a, l, a, l, a, l, a, l, a, l, a, l, a, l, a, l, a, l,
        a, l,
    ];
    assert_eq!(rt; refused(&list[0..31]), (0, 0, 0, 0), "31 nodes");
    assert_eq!(rt; refused(&list[0..32]), (1, 1, 255, 255), "32 nodes");
}

// The first three slots that hold a rule, 255 where there are fewer.
fn held(book: &Book) -> [u8; 3] {
    let mut slots = [255; 3];
    for (place, (slot, _rule)) in slots.iter_mut().zip(book.filled()) {
        *place = slot;
    }
    slots
}

#[test]
fn filled(rt: HostRuntime) -> Result<(), Fault> {
    let mut book = Book::new();
    assert_eq!(rt; held(&book), [255, 255, 255]);
    let rule = Rule::read(&[leaf(1)])?;
    book.put(31, rule);
    book.put(0, rule);
    book.put(32, rule);
    assert_eq!(rt;
        held(&book),
        [0, 31, 255],
        "ascending, and none past slot 31"
    );
    Ok(())
}
