ghost use Rattle.std.specs.Prelude.{◌≡◌, ◌≤◌};
ghost use Rattle.list.specs.Words.{Apart, FactWords, Free, listed, room};
ghost use Rattle.model.specs.Sizes.{size};

/// Facts in the caller's words. The first `used` words are the facts' words, and those behind them are free.
// A slice with a count beside it, and no `Vec`: by a rule of the project the caller lends the words, and nothing is allocated.
#[derive(Drop)]
pub struct FactList<'a> {
    pub(crate) words: &'a mut [u32],
    pub(crate) used: usize,
    ghost within: { used ≤ room words.now },
    ghost apart: { Apart words.now used },
    ghost facts: { FactWords words.now used },
    ghost rest: { Free words.now used },
    ghost counted: { used ≡ size (listed words.now used) },
}
