use crate::list::FactList;
use bits::Bits;
use model::fact::Fact;
use model::reading::Reading;
use model::store::Store;

#[test]
fn words(rt: HostRuntime) {
    let mut words = [1u32, 2, 3, 4];
    let mut list = FactList::new(&mut words);
    let first = Fact {
        sort: 0,
        x: 5,
        y: 0,
    };
    let second = Fact {
        sort: 3,
        x: 5,
        y: 6,
    };
    let third = Fact {
        sort: 6,
        x: 1,
        y: 2,
    };
    assert!(rt; list.put(first) && list.put(second) && list.put(third) && list.put(second));
    assert_eq!(rt; list.count(), 3);
    assert_eq!(rt; list.row(3, 6), Bits::none().with(5));
    list.drop_fact(first);
    assert_eq!(rt; words, [24642, 12614, 4294967295, 4294967295]);
}

#[test]
fn full(rt: HostRuntime) {
    let mut words = [0u32; 1];
    let mut list = FactList::new(&mut words);
    assert!(rt;
        list.put(Fact {
            sort: 0,
            x: 0,
            y: 0,
        }) && !list.put(Fact {
            sort: 0,
            x: 1,
            y: 0,
        })
    );
    assert!(rt;
        list.put(Fact {
            sort: 0,
            x: 0,
            y: 0,
        }) && !list.put(Fact {
            sort: 9,
            x: 0,
            y: 0,
        })
    );
}
