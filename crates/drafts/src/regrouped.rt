ghost use Rattle.drafts.specs.Sided.{side_changed};
ghost use Rattle.drafts.specs.SideFacts.{side_changed-possible};

use crate::regrouping::Regrouping;
use crate::side_rows::SideRows;
use bits::Bits;
use model::fact::Fact;
use model::reading::Reading;

/// What a reading holds once a join or a split has changed it.
#[derive(Drop)]
pub(crate) struct Regrouped<'a, R, C> {
    pub(crate) reading: &'a R,
    pub(crate) change: &'a C,
}

impl<'a, R: Reading, C: Regrouping> Reading for Regrouped<'a, R, C> {
    ghost held = { λ r. side_changed (C.side_of r.change.now) (C.regrouped r.change.now) (R.Reading.held r.reading.now) };

    // The trait cannot have this body too: `row` has one that rests on `holds`.
    fn holds(&self, fact: Fact) -> bool {
        self.row(fact.sort, fact.y).has(fact.x)
    }

    fn row(&self, sort: u8, y: u8) -> Bits {
        let side = self.change.side();
        let before = SideRows {
            reading: self.reading,
            side,
        };
        if sort == side.stands_sort() {
            self.change.standing(&before).when(y == 0)
        } else if sort == side.has_sort() {
            self.change.members(&before, y)
        } else if sort == side.under_sort() {
            self.change.below(&before, y)
        } else {
            self.reading.row(sort, y)
        }
    }

    ghost only_possible = { λ r. side_changed-possible (C.side_of r.change.now) (C.regrouped r.change.now) (C.keeps_range r.change.now) (R.Reading.held r.reading.now) (R.Reading.only_possible r.reading.now) };
}
