ghost use Rattle.std.specs.Prelude.{◌≡◌, ◌++◌, List, MatchOption};
ghost use Rattle.xc_sheet.specs.Ends.{line_of_word, lines_of_words};
ghost use Rattle.xc_sheet.specs.declared.lines.Line.{Line as PlainLine};

use xc_sheet::Line;

// The lines behind that of a word: one that is 0 has none.
fn behind_word(at: usize, value: u64, lines: &[Line]) -> Option<&[Line]>
    ensures { MatchOption result ((rest : List PlainLine) → lines.now ≡ line_of_word at value ++ rest → ⊥)
        (λ rest. lines.now ≡ line_of_word at value ++ rest.now) }
{
    if value == 0 {
        return Some(lines);
    }
    let [
        Line::Word {
            at: place,
            value: shown,
        },
        rest @ ..,
    ] = lines
    else {
        return None;
    };
    if *place != at as u64 || *shown != value {
        return None;
    }
    Some(rest)
}

/// The lines behind those of all words. `None` where these don't come first.
pub(crate) fn behind_words<'a>(words: &[u64], mut lines: &'a [Line]) -> Option<&'a [Line]>
    ensures { MatchOption result ((rest : List PlainLine) → lines.entry.now ≡ lines_of_words 0 words.now ++ rest → ⊥)
        (λ rest. lines.entry.now ≡ lines_of_words 0 words.now ++ rest.now) }
{
    for (at, value) in words.iter().enumerate() {
        lines = behind_word(at, *value, lines)?;
    }
    Some(lines)
}
