ghost use Rattle.std.specs.Prelude.{◌≡◌, ℕ, ◌<◌, true};
ghost use Rattle.model.specs.Facts.{possible};

// Sorts are numbers in this crate: facts are written in the order of their numbers, and a reading is asked by them.

// How many rows a sort has: every possible fact of the sort has an upper number below that.
pub(crate) fn row_count(sort: u8) -> u8
    ensures some { 0 < result }
    ensures all { (x y : ℕ) → possible sort x y ≡ true → y < result }
{
    if sort < 3 { 1 } else { 64 }
}
