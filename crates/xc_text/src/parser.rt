ghost use Rattle.std.specs.Prelude.{◌≡◌, ◌≤◌, [], false, length, IfOk, IsErrOf, Ok, Err};
ghost use Rattle.xc_data.specs.Limits.{KeepsLimits};
ghost use Rattle.xc_text.specs.Refusals.{Reads};
ghost use Rattle.xc_tokens.specs.Lines.{lines_of};
ghost use Rattle.xc_text.specs.Said.{nothing_said};
ghost use Rattle.xc_text.specs.Scripts.{parse_of, read_from, IsScript};

use crate::draft::Draft;
use crate::limits::MOST_SCRIPT_BYTES;
use crate::parse_err::ParseErr;
use crate::script::Script;
use std::alloc::Global;
use xc_data::Chunk;
use xc_tokens::{Stop, Why, first_line};

// The script of all lines, whose number is given.
fn close(draft: Draft, lines: u32) -> Result<Script, ParseErr>
    ensures { Reads result (read_from lines draft []) }
{
    if !draft.is_outside() {
        return Err(ParseErr::Refused {
            line: lines,
            why: Why::Unclosed,
        });
    }
    Ok(draft.into_script())
}

fn read_lines(alloc: Global, text: &Chunk) -> Result<Script, ParseErr>
    requires { length text.now ≤ 1048576 }
    ensures { Reads result (read_from 0 nothing_said (lines_of text.now)) }
{
    let mut draft = Draft::new(alloc, text.share()?)?;
    let mut tokens = Vec::new(alloc);
    let mut lines = 0;
    let mut rest = text.as_slice();
    while !rest.is_empty() {
        let (line, behind) = first_line(rest);
        lines += 1;
        match draft.read(alloc, &mut tokens, &line) {
            Ok(()) => {}
            Err(Stop::Refused(why)) => return Err(ParseErr::Refused { line: lines, why }),
            Err(Stop::NoMemory) => return Err(ParseErr::NoMemory),
        }
        rest = behind;
    }
    close(draft, lines)
}

/// Reads a script: what the grammar says of the text, or the first bad line with its first reason. Literals of the script share
/// the text.
pub fn parse(alloc: Global, text: &Chunk) -> Result<Script, ParseErr>
    ensures ok { IfOk result (λ script. parse_of text.now ≡ Ok script) }
    ensures refused { (line : _) (why : _) → IsErrOf result (ParseErr.Refused line why) → parse_of text.now ≡ Err (line, why) }
    ensures script { IfOk result IsScript }
    ensures limits { IfOk result (λ script. KeepsLimits script.outline) }
    ensures blocks { IfOk result (λ script. script.clients ≡ false) }
{
    if text.len() > MOST_SCRIPT_BYTES {
        return Err(ParseErr::Refused {
            line: 0,
            why: Why::TooLong,
        });
    }
    let script = read_lines(alloc, text)?;
    Ok(script)
}
