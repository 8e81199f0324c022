ghost use Rattle.std.specs.Prelude.{◌≡◌, ◌++◌, OnOk};
ghost use Rattle.xc_print.specs.Objects.{handle_text, num_text, object_text, mode_text, claim_text, further_claims, held_line};

use crate::paper::Paper;
use xc_data::{KeptClaim, Mode, Num, Object};

// `h` and the number; `h-` for handle 65,535, at which nothing is ever open.
fn push_handle<P: Paper>(out: &mut P, h: u16) -> Result<(), P::Error>
    ensures { OnOk result (P.said out.new ≡ P.said out.old ++ handle_text h) }
{
    if h == u16::MAX {
        return out.text("h-");
    }
    out.labelled("h", h as u64)
}

/// A handle after what stands before it.
#[inline(always)]
pub fn push_handled<P: Paper>(out: &mut P, before: &str, h: u16) -> Result<(), P::Error>
    ensures { OnOk result (P.said out.new ≡ P.said out.old ++ (before.now ++ handle_text h)) }
{
    out.text(before)?;
    push_handle(out, h)
}

fn push_num<P: Paper>(out: &mut P, num: Num) -> Result<(), P::Error>
    ensures { OnOk result (P.said out.new ≡ P.said out.old ++ num_text num) }
{
    let Num { tx, k } = num;
    out.number(tx as u64)?;
    out.labelled(".", k as u64)
}

/// A number after its label.
#[inline(always)]
pub fn push_labelled<P: Paper>(out: &mut P, label: &str, num: Num) -> Result<(), P::Error>
    ensures { OnOk result (P.said out.new ≡ P.said out.old ++ (label.now ++ num_text num)) }
{
    out.text(label)?;
    push_num(out, num)
}

/// The kind of an object and its number or name.
pub fn push_object<P: Paper>(out: &mut P, object: &Object) -> Result<(), P::Error>
    ensures { OnOk result (P.said out.new ≡ P.said out.old ++ object_text object.now) }
{
    match object {
        Object::Word(at) => out.labelled("word ", *at as u64),
        Object::Name(name) => {
            out.text("name ")?;
            out.push(name.as_slice())
        }
        Object::File(num) => push_labelled(out, "file ", *num),
        Object::Pipe(num) => push_labelled(out, "pipe ", *num),
        Object::Pair(num) => push_labelled(out, "pair ", *num),
        Object::Jobs => out.text("jobs"),
    }
}

fn push_mode<P: Paper>(out: &mut P, mode: Mode) -> Result<(), P::Error>
    ensures { OnOk result (P.said out.new ≡ P.said out.old ++ mode_text mode) }
{
    match mode {
        Mode::Shared => out.text(" shared"),
        Mode::Exclusive => Ok(()),
    }
}

#[inline(always)]
fn push_claim<P: Paper>(out: &mut P, claim: &KeptClaim) -> Result<(), P::Error>
    ensures { OnOk result (P.said out.new ≡ P.said out.old ++ claim_text claim.now) }
{
    push_object(out, &claim.object())?;
    push_mode(out, claim.mode())
}

fn push_further<P: Paper>(out: &mut P, claims: &[KeptClaim]) -> Result<(), P::Error>
    ensures { OnOk result (P.said out.new ≡ P.said out.old ++ further_claims claims.now) }
{
    for claim in claims {
        out.text(", ")?;
        push_claim(out, claim)?;
    }
    Ok(())
}

/// The line `held`, with its objects in the order of their claims; nothing if none is held.
pub fn push_held<P: Paper>(out: &mut P, held: &[KeptClaim]) -> Result<(), P::Error>
    ensures { OnOk result (P.said out.new ≡ P.said out.old ++ held_line held.now) }
{
    match held {
        [] => Ok(()),
        [first, further @ ..] => {
            out.text("  held ")?;
            push_claim(out, first)?;
            push_further(out, further)?;
            out.text("\n")
        }
    }
}
