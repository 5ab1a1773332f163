ghost use Rattle.std.specs.Prelude.{◌≡◌};
ghost use Rattle.list.specs.Words.{cleared, room};

// What an unused word holds.
pub(crate) const FREE: u32 = 4294967295;

// Every possible fact.
const MOST: usize = 16576;

/// How many facts the words have room for.
pub(crate) fn room_of(words: &[u32]) -> usize
    ensures { result ≡ room words.now }
{
    words.len().min(MOST)
}

/// Frees every word within the room.
pub(crate) fn clear(words: &mut [u32])
    ensures { words.new ≡ cleared words.old }
{
    let room = room_of(words);
    words[..room].fill(FREE);
}
