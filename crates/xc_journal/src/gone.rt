//! Entries that only proofs see. They take no memory, and nothing is done with them at run time.

ghost use Rattle.std.specs.Prelude.{◌≡◌, List, [], ◌++◌};
ghost use Rattle.std.specs.Borrow.{ftrue};
ghost use Rattle.std.specs.Coded.{coded_list, codes};
ghost use Rattle.xc_data.specs.declared.entry.Entry.{Entry as PlainEntry};

use std::marker::Model;
use xc_data::Entry;

/// Entries that were handed out.
#[derive(Drop)]
pub(crate) struct Gone {
    pub ghost entries: { List PlainEntry } by { coded_list (Prim.hlevel codes) },
}

impl Model for Gone {
    ghost also_owns = { λ _. ftrue };
}

// They own nothing, so they may go to another thread.
unsafe impl Send for Gone {}

/// Entries that come next.
#[derive(Clone, Copy, Drop)]
pub(crate) struct Next<'a> {
    pub entries: &'a [Entry],
}

impl Gone {
    // None.
    pub(crate) fn new() -> Gone
        ensures { result.entries ≡ [] }
    {
        Gone {}
    }

    // These, and behind them more.
    pub(crate) fn then(&self, _next: &Next<'_>) -> Gone
        ensures { result.entries ≡ self.now.entries ++ _next.now.entries.now }
    {
        Gone {}
    }
}
