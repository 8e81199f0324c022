ghost use Rattle.std.specs.Prelude.{◌≡◌};
ghost use Rattle.xc_outcome.specs.Due.{due_bytes};
ghost use Rattle.xc_sessions.specs.Lines.{serve_usage_line};

use xc_outcome::Due;

const USAGE: &str =
    "usage: xcalls_serve [--sessions N] [--port P] [--attempts N] [--patience N] [--undo-tries N]\n";

/// What is due where the words are refused.
pub fn usage() -> Due
    ensures { due_bytes result ≡ serve_usage_line }
{
    Due::Usage(USAGE)
}
