ghost use Rattle.model.specs.Facts.{placed};
ghost use Rattle.drafts.specs.Placement.{placed-possible};

use crate::placed::Placed;
use bits::Bits;
use model::fact::Fact;
use model::reading::Reading;

impl<'a, R: Reading> Reading for Placed<'a, R> {
    ghost held = { λ p. placed (R.Reading.held p.reading.now) p.fact.fact.sort p.fact.fact.x p.fact.fact.y p.held };

    // The trait cannot have this body too: `row` has one that rests on `holds`.
    fn holds(&self, fact: Fact) -> bool {
        self.row(fact.sort, fact.y).has(fact.x)
    }

    fn row(&self, sort: u8, y: u8) -> Bits {
        let row = self.reading.row(sort, y);
        let placed = self.fact.fact;
        if sort != placed.sort {
            return row;
        }
        if y != placed.y {
            return row;
        }
        if self.held {
            row.with(placed.x)
        } else {
            row.without(placed.x)
        }
    }

    ghost only_possible = { λ p. placed-possible (R.Reading.held p.reading.now) (R.Reading.only_possible p.reading.now) p.fact.fact.sort p.fact.fact.x p.fact.fact.y p.held p.fact.can };
}
