ghost use Rattle.std.specs.Prelude.{◌≡◌, IfOk, is_some};
ghost use Rattle.xc_live.specs.Closing.{NobodyIsActive};
ghost use Rattle.xc_live_c.specs.Finished.{IsTextOfRun};

use crate::clients::Clients;
use crate::run_text::RunText;
use crate::text_handle::TextHandle;
use std::alloc::Global;
use xc_data::NoMemory;

// Ends all clients of a desk, and keeps the text of the run.
pub(crate) fn finished(alloc: Global, clients: Box<Clients>) -> Result<Box<RunText>, NoMemory>
    requires { NobodyIsActive clients.value.desk }
    ensures { IfOk result (λ text. IsTextOfRun clients.value text.value) }
{
    let text = Box::into_inner(clients).finish(alloc)?;
    Ok(Box::new(alloc, text)?)
}

// Whether a handle has a text.
pub(crate) fn has_text(alloc: Global, text: &mut TextHandle) -> bool
    ensures there { result ≡ is_some text.old.value }
    ensures same { text.new.value ≡ text.old.value }
{
    let Some(there) = text.take(alloc) else {
        return false;
    };
    text.put(alloc, there);
    true
}
