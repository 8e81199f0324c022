//! What a client asked last, as far as a text tells it.

ghost use Rattle.std.specs.Prelude.{◌≡◌};
ghost use Rattle.xc_asked.specs.Walking.{client_asked as client_asked_of, client_end as client_end_of};

use xc_data::{Call, Cause, Outcome};
use xc_script::Ask;

// By why its transaction was aborted.
fn client_asked(cause: &Cause) -> Ask
    ensures { result ≡ client_asked_of cause.now }
{
    match cause {
        Cause::Asked => Ask::Abort,
        Cause::Conflict { .. } | Cause::Stuck { .. } => Ask::Call(Call::Back),
        Cause::Revoked { .. } | Cause::NoMemory => Ask::Commit,
    }
}

/// By how its transaction ended.
pub(crate) fn client_end(outcome: &Outcome) -> Ask
    ensures { result ≡ client_end_of outcome.now }
{
    match outcome {
        Outcome::Committed { .. } => Ask::Commit,
        Outcome::Aborted(report) => client_asked(&report.cause),
    }
}
