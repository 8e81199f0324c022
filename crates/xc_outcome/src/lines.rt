ghost use Rattle.std.specs.Prelude.{◌≡◌, ◌++◌, IfOk, OnOk, string_bytes};
ghost use Rattle.xc_outcome.specs.Lines.{refused_line, why_text};

use std::alloc::{AllocError, Global};
use xc_text::Why;

fn push_why(out: &mut String, why: Why) -> Result<(), AllocError>
    ensures { OnOk result (string_bytes out.new ≡ string_bytes out.old ++ why_text why) }
{
    match why {
        Why::TooLong => out.push_str("too long"),
        Why::BadByte => out.push_str("bad byte"),
        Why::BadLiteral => out.push_str("bad literal"),
        Why::UnknownLine => out.push_str("unknown line"),
        Why::BadForm => out.push_str("bad form"),
        Why::BadNumber => out.push_str("bad number"),
        Why::BadName => out.push_str("bad name"),
        Why::Twice => out.push_str("twice"),
        Why::TooMany => out.push_str("too many"),
        Why::Unclosed => out.push_str("unclosed"),
    }
}

/// The line that a refused script is answered with.
pub fn refused(alloc: Global, line: u32, why: Why) -> Result<String, AllocError>
    ensures { IfOk result (λ text. string_bytes text ≡ refused_line line why) }
{
    let mut text = String::new(alloc);
    write!(text, "line {line}: ")?;
    push_why(&mut text, why)?;
    text.push_str("\n")?;
    Ok(text)
}
