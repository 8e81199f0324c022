//! Bytes that only proofs see. They take no memory, and nothing is done with them at run time.

ghost use Rattle.std.specs.Prelude.{◌≡◌, ℕ, List, [], ◌++◌};
ghost use Rattle.std.specs.Borrow.{ftrue};
ghost use Rattle.std.specs.Coded.{coded_list, coded_ℕ};

use std::marker::Model;

/// Bytes one after another.
#[derive(Drop)]
pub(crate) struct Said {
    pub ghost bytes: { List ℕ } by { coded_list coded_ℕ },
}

impl Model for Said {
    ghost also_owns = { λ _. ftrue };
}

/// Bytes that come next.
#[derive(Clone, Copy, Drop)]
pub(crate) struct More<'a> {
    pub bytes: &'a [u8],
}

impl Said {
    // None.
    #[inline(always)]
    pub(crate) fn new() -> Said
        ensures { result.bytes ≡ [] }
    {
        Said {}
    }

    // These, and behind them more.
    #[inline(always)]
    pub(crate) fn then(&self, _more: &More<'_>) -> Said
        ensures { result.bytes ≡ self.now.bytes ++ _more.now.bytes.now }
    {
        Said {}
    }
}
