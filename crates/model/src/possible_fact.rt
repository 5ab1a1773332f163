ghost use Rattle.model.specs.Facts.{possible};
ghost use Rattle.std.specs.Prelude.{◌≡◌, true};

use crate::fact::Fact;

/// A fact that there can be.
#[derive(Clone, Copy)]
pub struct PossibleFact {
    pub fact: Fact,
    ghost can: { possible fact.sort fact.x fact.y ≡ true },
}

/// There can be no such fact.
#[derive(Clone, Copy, PartialEq, Eq, Debug)]
pub struct Impossible;

impl TryFrom<Fact> for PossibleFact {
    type Error = Impossible;

    ghost use Rattle.model.specs.IfPossible.{IfPossible};

    ghost try_from_gives = { IfPossible };

    fn try_from(fact: Fact) -> Result<PossibleFact, Impossible> {
        if fact.is_possible() {
            Ok(PossibleFact { fact })
        } else {
            Err(Impossible)
        }
    }
}
