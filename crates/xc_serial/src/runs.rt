ghost use Rattle.std.specs.Prelude.{◌≡◌, ◌≤◌, List, [], sum_by, true, false, IsTrue};
ghost use Rattle.std.specs.List.{list_any};
ghost use Rattle.xc_data.specs.declared.entry.Entry.{Entry};
ghost use Rattle.xc_data.specs.Faults.{entry_faults};
ghost use Rattle.xc_print.specs.Text.{rendered};
ghost use Rattle.xc_print.specs.Totals.{entry_remains};
ghost use Rattle.xc_model.specs.Live.{IsScripted};
ghost use Rattle.xc_model.specs.Setting.{Setting};
ghost use Rattle.xc_model.specs.Serial.{IsSerial};
ghost use Rattle.xc_model.specs.Ending.{Final, IsTrueEnd, StopWhereFull, all_done, wanted_memory};
ghost use Rattle.xc_serial.specs.Plain.{plain_text};
ghost use Rattle.xc_serial.specs.Undisturbed.{all_alone, is_full};

/// Over a host that tells, a run whose jobs ran one after another, until the journal was full, where no call met a fault and nothing
/// wanted memory, has the text of its script alone, but for lines on kept data. Were no try allowed, a compensation could fail
/// without a fault; were no attempt allowed, a job could give up at once.
pub fn a_run_without_faults_has_the_plain_text()
    ensures { (s : Setting) (entries : List Entry) (final : Final) → IsScripted s.script → IsTrue s.tells → 1 ≤ s.rules.attempts
        → 1 ≤ s.rules.undo_tries
        → IsTrueEnd s entries final → IsSerial entries → StopWhereFull final.lines entries → sum_by entry_faults entries ≡ 0
        → wanted_memory final.lines entries ≡ false → rendered entries final.lines final.words [] ≡ plain_text s.script }
{}

/// Over any host: where no attempt met another, no job found the journal full and nothing wanted memory, each job ended by its last
/// transaction; and where no fault is recorded, no effect of an aborted transaction remains.
pub fn an_undisturbed_run_is_done()
    ensures done { (s : Setting) (entries : List Entry) (final : Final) → IsScripted s.script → 1 ≤ s.rules.attempts
        → IsTrueEnd s entries final
        → all_alone entries ≡ true → list_any is_full final.lines ≡ false → wanted_memory final.lines entries ≡ false
        → all_done final.lines ≡ true }
    ensures nothing { (s : Setting) (entries : List Entry) (final : Final) → 1 ≤ s.rules.undo_tries → IsTrueEnd s entries final
        → sum_by entry_faults entries ≡ 0 → sum_by entry_remains entries ≡ 0 }
{}
