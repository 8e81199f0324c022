//! The end of an inner block.

ghost use Rattle.std.specs.Prelude.{◌≡◌, ◌≤◌, ◌<◌, drop, length};
ghost use Rattle.xc_text.specs.Kept.{said_by};
ghost use Rattle.xc_script.specs.Blocks.{is_keep, behind_keep};

use xc_text::{Form, KeptStatement};

// A statement in this form closes a block.
fn is_keep(form: &Form) -> bool
    ensures { result ≡ is_keep (said_by form.now) }
{
    match form {
        Form::Keep => true,
        Form::Load { .. } | Form::Store { .. } | Form::StoreSum { .. } => false,
        Form::StoreDifference { .. } | Form::XOpen { .. } | Form::XCreate { .. } => false,
        Form::XRename { .. } | Form::XRead { .. } | Form::XWriteOvr { .. } => false,
        Form::XWriteSeq { .. } | Form::XSeek { .. } | Form::XLen { .. } => false,
        Form::XClose { .. } | Form::XUnlink { .. } | Form::XSync { .. } => false,
        Form::XPipe { .. } | Form::XReadPipe { .. } | Form::XWritePipe { .. } => false,
        Form::XShutdown { .. } | Form::XPair { .. } | Form::XRecvmsg { .. } => false,
        Form::XSendmsg { .. } | Form::XThreadCreate { .. } | Form::Abort => false,
        Form::Let { .. } | Form::LetSum { .. } | Form::LetDifference { .. } => false,
        Form::AbortIf { .. } | Form::Require | Form::Save => false,
        Form::Back | Form::BackIf { .. } => false,
    }
}

/// Goes to behind the next statement that closes a block, or to the end. It takes no memory.
pub fn pass_keep(at: &mut usize, body: &[KeptStatement])
    ensures behind { drop at.new body.now ≡ behind_keep (drop at.old body.now) }
    ensures at { at.old ≤ at.new }
    ensures further { at.old < length body.now → at.old < at.new }
{
    while let Some(statement) = body.get(*at) {
        *at += 1;
        if is_keep(statement.form()) {
            return;
        }
    }
}
