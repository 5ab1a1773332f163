ghost use Rattle.law.specs.Prepared.{JoinsCarryPeople, SplitsCarryPeople, StepsCarrySoundness};

/// What lists of accepted steps keep: any steps keep a model sound; splits keep the people of every rule; splits and joins take nobody from a rule
/// without NOT, and give nobody to a rule of negated leaves.
pub fn steps_carry() -> u8
    ensures sound { StepsCarrySoundness }
    ensures splits { SplitsCarryPeople }
    ensures joins { JoinsCarryPeople }
{
    0
}
