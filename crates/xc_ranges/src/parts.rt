ghost use Rattle.std.specs.Prelude.{◌<◌, ◌^◌};
ghost use Rattle.xc_lines.specs.Ranges.{AreBytes, AreClaimsInRange, IsIdent, IsName, IsNumInRange, IsObjectInRange, IsSlot};

use xc_data::{Ident, KeptClaim, Num, Object, SharedName, SlotName};

/// A byte is within its range.
pub(crate) fn byte(n: u8)
    ensures { n < 2 ^ 8 }
{}

/// A number of 16 bits is.
pub(crate) fn half(n: u16)
    ensures { n < 2 ^ 16 }
{}

/// A number of 32 bits is.
pub(crate) fn number(n: u32)
    ensures { n < 2 ^ 32 }
{}

/// A number of 64 bits is.
pub(crate) fn wide(n: u64)
    ensures { n < 2 ^ 64 }
{}

/// Bytes are.
pub(crate) fn bytes(all: &[u8])
    ensures { AreBytes all.now }
{
    let mut rest = all;
    while let [first, behind @ ..] = rest {
        byte(*first);
        rest = behind;
    }
}

/// A name is spelled as one.
pub(crate) fn name(name: &SharedName)
    ensures { IsName name.now }
{
    name.as_slice();
}

/// An identifier is spelled as one.
pub(crate) fn ident(ident: &Ident)
    ensures { IsIdent ident.now }
{
    ident.as_slice();
}

/// So is that of a slot, where there is one.
pub(crate) fn slot(slot: &SlotName)
    ensures { IsSlot slot.now }
{
    if let Some(name) = slot.name() {
        ident(name);
    }
}

/// The number of a file, a pipe or a pair is within its range.
pub(crate) fn num(num: &Num)
    ensures { IsNumInRange num.now }
{
    number(num.tx);
    half(num.k);
}

/// An object is.
pub(crate) fn object(object: &Object)
    ensures { IsObjectInRange object.now }
{
    match object {
        Object::Word(at) => number(*at),
        Object::Name(named) => name(named),
        Object::File(found) | Object::Pipe(found) | Object::Pair(found) => num(found),
        Object::Jobs => {}
    }
}

// A claim's object is.
fn claim(claim: &KeptClaim)
    ensures { IsObjectInRange claim.now.object }
{
    object(&claim.object());
}

/// Claims' objects are.
pub(crate) fn claims(all: &[KeptClaim])
    ensures { AreClaimsInRange all.now }
{
    let mut rest = all;
    while let [first, behind @ ..] = rest {
        claim(first);
        rest = behind;
    }
}
