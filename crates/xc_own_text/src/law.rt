ghost use Rattle.std.specs.Prelude.{◌≡◌, ℕ, List, IsTrue, Ok};
ghost use Rattle.xc_check.specs.TrueTexts.{IsTrueText, telling};
ghost use Rattle.xc_model.specs.declared.rules.Rules.{Rules};
ghost use Rattle.xc_outcome.specs.Runs.{IsRunOf, end_text};
ghost use Rattle.xc_station.specs.declared.run_result.End.{End};
ghost use Rattle.xc_text.specs.Scripts.{parse_of};
ghost use Rattle.xc_text.specs.declared.script.Script.{Script};

use xc_host::Host;

/// Over a host that tells, the text of a run is that of a true end: whatever the threads did, `check` calls it true.
pub fn the_text_of_a_run_is_true<H: Host>()
    ensures { (bytes : List ℕ) (rules : Rules) (host : H) (end : End H) → IsTrue H.model.tells → IsRunOf H.model bytes rules host end
        → (script : Script) → parse_of bytes ≡ Ok script → IsTrueText (telling script rules) (end_text end) }
{}
