ghost use Rattle.list.specs.Words.{cleared, room, written};
ghost use Rattle.model.specs.Facts.{possible};
ghost use Rattle.std.specs.Prelude.{◌≡◌, ◌&&◌, if◌then◌else◌, nat_lt};

use crate::list::FactList;
use model::fact::Fact;
use model::store::Store;

/// Begins the caller's words anew with one fact, if there is room for it. The caller knows what they hold once the list is gone.
pub fn begin(words: &mut [u32], fact: Fact)
    ensures { words.new ≡ (if possible fact.sort fact.x fact.y && nat_lt 0 (room words.old) then written (cleared words.old) fact.sort fact.x fact.y else cleared words.old) }
{
    let mut list = FactList::new(words);
    list.put(fact);
}
