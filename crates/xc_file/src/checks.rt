ghost use Rattle.std.specs.Prelude.{◌≡◌, ◌≤◌, ◌+◌, false, is_some, IfSome, IfOk, IfErr, OnOk, MatchResult};
ghost use Rattle.std.specs.declared.option.Option.TheVariants.{None, Some};
ghost use Rattle.xc_data.specs.Private.{place_of};
ghost use Rattle.xc_world.specs.Checks.{is_file};
ghost use Rattle.xc_data.specs.Calls.{is_late};
ghost use Rattle.xc_file.specs.Checks.{IsOpenAt, file_refusal_at};

use xc_data::{MOST_CALL_BYTES, MOST_STORED, Num, Place, Private, Reply};

/// A file that is open at a handle, and its position.
#[derive(Clone, Copy)]
pub(crate) struct OpenFile {
    pub(crate) h: u16,
    pub(crate) num: Num,
    pub(crate) at: u32,
}

/// The file at a handle, if one is open there.
pub(crate) fn file_at(me: &Private, h: u16) -> Option<OpenFile>
    ensures open { IfSome result (λ file. (file.h ≡ h) × IsOpenAt me.now file) }
    ensures kind { is_some result ≡ is_file (place_of me.now.places h) }
{
    match me.place(h) {
        Place::File { num, at } => Some(OpenFile { h, num, at }),
        _ => None,
    }
}

/// The file at a handle, for a call of n bytes, or the reply of the check that refuses it.
pub(crate) fn open_file(me: &Private, h: u16, n: u64) -> Result<OpenFile, Reply>
    requires stored { me.now.stored ≤ 16384 }
    ensures open { IfOk result (λ file. (file.h ≡ h) × IsOpenAt me.now file) }
    ensures few { OnOk result ((n ≤ 1024) × (me.now.stored + n ≤ 16384)) }
    ensures now { IfErr result (λ reply. is_late reply ≡ false) }
    ensures checks { MatchResult result (λ file. file_refusal_at me.now h n ≡ None) (λ reply. file_refusal_at me.now h n ≡ Some reply) }
{
    let Some(file) = file_at(me, h) else {
        return Err(Reply::BadHandle);
    };
    if n > MOST_CALL_BYTES {
        return Err(Reply::TooBig);
    }
    if me.stored as u64 + n > MOST_STORED {
        return Err(Reply::TooMuch);
    }
    Ok(file)
}
