ghost use Rattle.std.specs.Bool.{Decides};
ghost use Rattle.std.specs.Prelude.{◌≡◌};

use xc_data::{Name, Num};

/// Two lists of bytes are the same.
pub(crate) fn same_bytes(a: &[u8], b: &[u8]) -> bool
    ensures { Decides result (a.now ≡ b.now) }
{
    a == b
}

/// Two names of files are the same.
pub(crate) fn same_name(a: &Name, b: &Name) -> bool
    ensures { Decides result (a.now ≡ b.now) }
{
    a == b
}

/// Two numbers of files, pipes or pairs are the same.
pub(crate) fn same_num(a: Num, b: Num) -> bool
    ensures { Decides result (a ≡ b) }
{
    a == b
}
