use answers::everyone::Everyone;
use answers::reader::read_rule;
use bits::Bits;
use board::Board;
use model::fact::Fact;
use model::store::Store;
use plant::nodes::node;
use rules::rule::Rule;

// The word of the set that the rule `Actor=5` is read to over the board, before those who do not stand are taken out.
fn read_actor_5(board: &Board) -> Option<u64> {
    let rule = Rule::read(&[node(0, 0, 5, 0)]).ok()?;
    let mut stack = [Bits::none(); 16];
    let set = read_rule(&Everyone { reading: board }, &rule, &mut stack)?;
    Some(set.word)
}

// A test and no clause: what a question promises it promises of the persons that are asked about, who stand.
#[test]
fn an_actor_leaf_has_only_who_stands(rt: HostRuntime) {
    let mut board = Board::new();
    assert_eq!(rt; read_actor_5(&board), Some(0), "nothing stands");
    board.put(Fact {
        sort: 0,
        x: 5,
        y: 0,
    });
    assert_eq!(rt; read_actor_5(&board), Some(32), "actor 5 stands");
}
