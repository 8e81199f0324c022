ghost use Rattle.std.specs.Prelude.{◌≡◌};
ghost use Rattle.xc_model.specs.Course.{standing_anew};

use std::alloc::Global;
use std::marker::Model;
use xc_data::{Cause, Ident, Items};

/// A started job, as the journal tells it: the name of its block, the number of the first attempt at its next transaction, where there
/// was one, why attempts at it ended that are to be tried again, whether its last entry was aborted for lack of memory, and how long
/// the journal was after its last entry, or after that of its starter.
#[derive(Drop)]
pub struct Standing {
    pub(crate) block: Ident,
    pub(crate) first: Option<u32>,
    pub(crate) failed: Items<Cause>,
    pub(crate) starved: bool,
    pub(crate) since: u32,
}

impl Model for Standing {
    ghost use Rattle.xc_model.specs.Course.{Standing as PlainStanding};

    ghost Value = { PlainStanding };

    ghost view = { λ a.
        record {
          block = a.block;
          first = a.first;
          failed = a.failed;
          starved = a.starved;
          since = a.since;
        } };
}

impl Standing {
    /// A job of this block before its next transaction is tried.
    pub(crate) fn anew(alloc: Global, block: Ident, since: u32) -> Standing
        ensures { result ≡ standing_anew block since }
    {
        Standing {
            block,
            first: None,
            failed: Items::new(alloc),
            starved: false,
            since,
        }
    }
}
