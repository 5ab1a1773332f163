//! The bit board: a store with room for every possible fact, a bit for each.
#![tactic(auto)]

ghost use Rattle.std.specs.Prelude.{◌≡◌, ℕ, ◌<◌, true, false, ◌&&◌, [], if◌then◌else◌, ◌==◌, nat_eq};
ghost use Rattle.bits.specs.Bit.{bit};
ghost use Rattle.board.specs.Rows.{marked, row_place};
ghost use Rattle.board.specs.OnlyPossible.{only_possible};
ghost use Rattle.model.specs.Facts.{OnlyPossible, placed, possible};

use bits::Bits;
use model::fact::Fact;
use model::possible_fact::PossibleFact;
use model::reading::Reading;
use model::store::Store;

// One row for each of the three sorts of standing, and 64 for each of the four sorts of pairs.
const ROWS: usize = 259;

// Every possible fact.
const CAPACITY: usize = 16576;

/// Facts as rows of bits. A row has the facts of one sort and one upper number y, with bit x for each lower number x.
// It has no `Model`: the value would be a set of facts, and a function has no code. All rows lie in one array of fixed size, since nothing is allocated; they are words
// and not `Bits`, since what the rows say is defined on words.
#[derive(Clone, Copy)]
pub struct Board {
    rows: [u64; ROWS],
}

impl Board {
    /// A board with no facts.
    pub fn new() -> Board
        ensures { (s x y : ℕ) → marked result.rows s x y ≡ false }
    {
        Board { rows: [0; ROWS] }
    }

    /// Writes a whole row: of this sort and this y the board then holds the facts of the numbers in the row, and no others. Nothing happens where no such
    /// fact is possible.
    pub fn set_row(&mut self, sort: u8, y: u8, row: Bits)
        ensures { (s x v : ℕ) → marked self.new.rows s x v ≡ (if nat_eq s sort && v == y then possible s x v && bit row.word x else marked self.old.rows s x v) }
    {
        if let Ok(lowest) = PossibleFact::try_from(Fact { sort, x: 0, y }) {
            self.rows[place(lowest)] = row.word;
        }
    }

    // Writes a fact in or out.
    fn write(&mut self, fact: PossibleFact, held: bool)
        ensures { marked self.new.rows ≡ placed (marked self.old.rows) fact.fact.sort fact.fact.x fact.fact.y held }
    {
        let i = place(fact);
        let row = Bits { word: self.rows[i] };
        let new = if held {
            row.with(fact.fact.x)
        } else {
            row.without(fact.fact.x)
        };
        self.rows[i] = new.word;
    }
}

// Where the row of the fact lies.
fn place(fact: PossibleFact) -> usize
    ensures value { result ≡ row_place fact.fact.sort fact.fact.y }
    ensures within { result < 259 }
{
    let Fact { sort, x: _, y } = fact.fact;
    if sort < 3 {
        sort as usize
    } else {
        3 + (sort as usize - 3) * 64 + y as usize
    }
}

// The row of a sort and an upper number, with nothing in it where no such fact is possible. It takes the rows: that each fits its word is known of a
// lent array, and not of a board's field.
fn read(rows: &[u64; ROWS], sort: u8, y: u8) -> Bits
    ensures { (x : ℕ) → bit result.word x ≡ marked rows.now sort x y }
{
    match PossibleFact::try_from(Fact { sort, x: 0, y }) {
        Ok(lowest) => Bits {
            word: rows[place(lowest)],
        },
        Err(_) => Bits::none(),
    }
}

impl Reading for Board {
    ghost held = { λ b. marked b.rows };

    fn holds(&self, fact: Fact) -> bool {
        read(&self.rows, fact.sort, fact.y).has(fact.x)
    }

    fn row(&self, sort: u8, y: u8) -> Bits {
        read(&self.rows, sort, y)
    }

    ghost only_possible = { λ b. only_possible b.rows };
}

impl Store for Board {
    ghost capacity = { λ _. 16576 };

    ghost home = { λ _. 0 };

    ghost words = { λ _. [] };

    ghost written = { λ ws _ _ _. ws };

    ghost erased = { λ ws _ _ _. ws };

    fn capacity(&self) -> usize {
        CAPACITY
    }

    fn count(&self) -> usize {
        let mut n: usize = 0;
        for row in self.rows {
            n += Bits { word: row }.count() as usize;
        }
        n
    }

    fn put(&mut self, fact: Fact) -> bool {
        let Ok(fact) = PossibleFact::try_from(fact) else {
            return false;
        };
        self.write(fact, true);
        true
    }

    fn drop_fact(&mut self, fact: Fact) {
        if let Ok(fact) = PossibleFact::try_from(fact) {
            self.write(fact, false);
        }
    }
}

#[cfg(test)]
mod tests {
    use super::*;

    #[test]
    fn corners(rt: HostRuntime) {
        let mut board = Board::new();
        let last = Fact {
            sort: 6,
            x: 63,
            y: 63,
        };
        assert!(rt;
            board.put(last)
                && board.put(last)
                && board.put(Fact {
                    sort: 2,
                    x: 63,
                    y: 0,
                })
        );
        assert!(rt;
            !board.put(Fact {
                sort: 2,
                x: 63,
                y: 1,
            }) && !board.put(Fact {
                sort: 7,
                x: 0,
                y: 0,
            })
        );
        assert_eq!(rt; board.count(), 2);
        assert_eq!(rt; board.row(6, 63), Bits::none().with(63));
        assert_eq!(rt; board.row(6, 64), Bits::none());
        board.drop_fact(last);
        assert!(rt; !board.holds(last));
        assert_eq!(rt; board.count(), 1);
    }
}
