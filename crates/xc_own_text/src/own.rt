ghost use Rattle.std.specs.Prelude.{◌≡◌, ◌≤◌, ◌^◌, IfOk, IsTrue, length};
ghost use Rattle.xc_check.specs.declared.verdict.Verdict.TheVariants.{Yes};
ghost use Rattle.xc_outcome.specs.Runs.{IsRunOf, end_text};

use std::alloc::Global;
use xc_check::{Basis, Verdict, check};
use xc_data::{Chunk, NoMemory};
use xc_host::Host;
use xc_model::Rules;
use xc_ranges::end_in_range;
use xc_station::End;

/// Checks the text of a run's own end: over a host that tells its contents the answer is yes. The text must not be longer than what is
/// read.
pub fn check_own<H: Host>(
    alloc: Global,
    script: &Chunk,
    rules: &Rules,
    end: &End<H>,
    text: &[u8],
) -> Result<Verdict, NoMemory>
    requires rules { 1 ≤ rules.now.attempts }
    requires tells { IsTrue H.model.tells }
    requires run { (host : H) × IsRunOf H.model script.now rules.now host end.now }
    requires text { text.now ≡ end_text end.now }
    requires short { length text.now ≤ 2 ^ 26 }
    ensures { IfOk result (λ verdict. verdict ≡ Yes) }
{
    end_in_range(
        end.journal.as_slice(),
        end.jobs.as_slice(),
        end.words.as_slice(),
        end.kept.as_slice(),
    );
    let basis = Basis {
        rules: *rules,
        clients: false,
    };
    check(alloc, script, &basis, text)
}
