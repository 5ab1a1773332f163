ghost use Rattle.bits.specs.Bit.{bit};
ghost use Rattle.previews.specs.Effects.{EffectOf, effect_number};
ghost use Rattle.std.specs.Prelude.{◌≡◌, true};

use bits::Bits;

/// What a change does to the people of a rule.
#[derive(Clone, Copy, PartialEq, Eq, Debug)]
pub enum Effect {
    /// The same people.
    Same = 0,
    /// Some of the old people and nobody new.
    Reduction = 1,
    /// All of the old people and somebody new.
    Expansion = 2,
    /// Somebody new, and not all of the old people.
    Neither = 3,
}

impl Effect {
    /// The number of the effect, as callers know it.
    pub fn number(self) -> u8
        ensures { result ≡ effect_number self }
    {
        self as u8
    }

    /// The effect of the new people in the place of the old ones.
    pub fn between(new: Bits, old: Bits) -> Effect
        ensures { EffectOf (λ a. bit new.word a ≡ true) (λ a. bit old.word a ≡ true) result }
    {
        match (new.minus(old).lowest(), old.minus(new).lowest()) {
            (None, None) => Effect::Same,
            (None, Some(_)) => Effect::Reduction,
            (Some(_), None) => Effect::Expansion,
            (Some(_), Some(_)) => Effect::Neither,
        }
    }
}
