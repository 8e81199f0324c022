ghost use Rattle.std.specs.Prelude.{◌≡◌, map};
ghost use Rattle.xc_tokens.specs.ByWord.{by_word as found_by};

use crate::words::spells;

/// What a word stands for by a table.
pub fn by_word<A: Copy>(mut table: &[(&[u8], A)], word: &[u8]) -> Option<A>
    ensures { result ≡ found_by (map (λ entry. (entry.0.now, entry.1)) table.entry.now) word.now }
{
    while let [(text, meant), rest @ ..] = table {
        if spells(word, text) {
            return Some(*meant);
        }
        table = rest;
    }
    None
}
