//! Copies of words among the words of one place.
ghost use Rattle.std.specs.Prelude.{◌≡◌, ◌+◌, ◌≤◌, length};
ghost use Rattle.word_store.specs.Copies.{AreDisjoint, copied};

use crate::words::Words;

/// Copies so many words to another address. The two stretches have no word in common.
pub fn copy<W: Words>(words: &mut W, from: u32, to: u32, count: u32)
    requires steady { W.IsSteady words.old }
    requires within { from + count ≤ length (W.words words.old) }
    requires room { to + count ≤ length (W.words words.old) }
    requires apart { AreDisjoint from to count }
    ensures copied { W.words words.new ≡ copied (W.words words.old) from to count }
    ensures rest { W.Rest words.old words.new }
{
    // No address is past 32 bits, since there are not that many words.
    let _words_count = words.count();
    for i in 0..count {
        let word = words.load(from + i);
        words.put(to + i, word);
    }
}
