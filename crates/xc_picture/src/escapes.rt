ghost use Rattle.std.specs.Prelude.{◌≡◌, ◌++◌, ◌<◌, false, OnOk};
ghost use Rattle.std.specs.Fmt.{digit_glyph};
ghost use Rattle.xc_picture.specs.Escapes.{is_barred, reference, svg_escaped_byte, svg_escaped};

use xc_data::NoMemory;
use xc_print::Page;

fn hex_digit(n: u8) -> u8
    requires { n < 16 }
    ensures { result ≡ digit_glyph false n }
{
    if n < 10 { b'0' + n } else { b'a' + (n - 10) }
}

fn is_barred(b: u8) -> bool
    ensures { result ≡ is_barred b }
{
    b < 32 && b != b'\t' && b != b'\n' && b != b'\r'
}

fn push_reference(out: &mut Page, b: u8) -> Result<(), NoMemory>
    ensures { OnOk result (out.new ≡ out.old ++ reference b) }
{
    if is_barred(b) {
        return out.text("&#65533;");
    }
    out.push(&[b'&', b'#', b'x', hex_digit(b / 16), hex_digit(b % 16), b';'])
}

fn push_byte(out: &mut Page, b: u8) -> Result<(), NoMemory>
    ensures { OnOk result (out.new ≡ out.old ++ svg_escaped_byte b) }
{
    match b {
        b'"' => out.text("&quot;"),
        b'&' => out.text("&amp;"),
        b'<' => out.text("&lt;"),
        b'>' => out.text("&gt;"),
        b' '..=b'~' => out.push_byte(b),
        _ => push_reference(out, b),
    }
}

/// Bytes, escaped, at the end of the page.
pub fn push_escaped(out: &mut Page, bytes: &[u8]) -> Result<(), NoMemory>
    ensures { OnOk result (out.new ≡ out.old ++ svg_escaped bytes.now) }
{
    for b in bytes {
        push_byte(out, *b)?;
    }
    Ok(())
}
