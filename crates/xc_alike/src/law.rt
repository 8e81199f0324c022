ghost use Rattle.std.specs.Prelude.{◌≡◌, List, map};
ghost use Rattle.xc_data.specs.Faults.{entry_faults};
ghost use Rattle.xc_data.specs.declared.entry.Entry.{Entry};
ghost use Rattle.xc_model.specs.Asked.{ScriptJob, IsAskedEntry, after_jobs};
ghost use Rattle.xc_model.specs.Course.{Course, after_course};
ghost use Rattle.xc_model.specs.Machine.{machine_part};
ghost use Rattle.xc_print.specs.Totals.{is_committed, entry_remains, totals_of};
ghost use Rattle.xc_script.specs.declared.ask.Ask.{Ask};
ghost use Rattle.xc_shown.specs.Shown.{shown_of};
ghost use Rattle.xc_text.specs.declared.script.Script.{Script};
ghost use Rattle.xc_world.specs.World.{State};

/// Entries that a text shows alike lead to the same state of the plain machine and to the same jobs, and are grounded alike.
pub fn entries_shown_alike_lead_alike()
    ensures course { (e f : Entry) → shown_of e ≡ shown_of f → (c : Course) → after_course c e ≡ after_course c f }
    ensures part { (e f : Entry) → shown_of e ≡ shown_of f
        → (state : State) (last : Ask) → machine_part state last e ≡ machine_part state last f }
    ensures jobs { (e f : Entry) → shown_of e ≡ shown_of f
        → (script : Script) (jobs : List ScriptJob) → after_jobs script jobs e ≡ after_jobs script jobs f }
    ensures asked { (e f : Entry) → shown_of e ≡ shown_of f
        → (script : Script) (jobs : List ScriptJob) (last : Ask) → IsAskedEntry script jobs last e → IsAskedEntry script jobs last f }
{}

/// They count alike too, and so do journals that a text shows alike.
pub fn entries_shown_alike_count_alike()
    ensures faults { (e f : Entry) → shown_of e ≡ shown_of f → entry_faults e ≡ entry_faults f }
    ensures remains { (e f : Entry) → shown_of e ≡ shown_of f → entry_remains e ≡ entry_remains f }
    ensures commits { (e f : Entry) → shown_of e ≡ shown_of f → is_committed e ≡ is_committed f }
    ensures totals { (journal other : List Entry) → map shown_of journal ≡ map shown_of other → totals_of journal ≡ totals_of other }
{}
