ghost use Rattle.std.specs.Prelude.{◌≡◌};
ghost use Rattle.xc_coop.specs.Lines.{coop_usage_line};
ghost use Rattle.xc_outcome.specs.Due.{due_bytes};

use xc_outcome::Due;

const USAGE: &str =
    "usage: xcalls_coop [--share N] [--attempts N] [--patience N] [--undo-tries N]\n";

/// What is due where the words are refused.
pub fn usage() -> Due
    ensures { due_bytes result ≡ coop_usage_line }
{
    Due::Usage(USAGE)
}
