ghost use Rattle.std.specs.Prelude.{◌≡◌, ℕ, List, length, true};
ghost use Rattle.xc_data.specs.declared.entry.Entry.{Entry};
ghost use Rattle.xc_data.specs.declared.entry.JobLine.{JobLine};
ghost use Rattle.xc_model.specs.Setting.{Setting};
ghost use Rattle.xc_model.specs.Progress.{progress_of};
ghost use Rattle.xc_model.specs.Moment.{JobView, Moment};
ghost use Rattle.xc_model.specs.Stories.{StoriesHold};
ghost use Rattle.xc_model.specs.Words.{WordsAgree};
ghost use Rattle.xc_model.specs.Handles.{AreCalled};
ghost use Rattle.xc_model.specs.Handling.{HandlesAgree};
ghost use Rattle.xc_model.specs.Consistent.{AreLinesOf};
ghost use Rattle.xc_model.specs.Live.{IsScripted};
ghost use Rattle.xc_model.specs.Truth.{IsTrueJournal};
ghost use Rattle.xc_model.specs.Ending.{AreEnds, IsComplete, all_done};
ghost use Rattle.xc_model.specs.Accounted.{AreAccounted};

/// Where each job has ended the journal is true, the words are its words, each job has the end that its story has, and the host was
/// called by the entries, and by nothing else.
pub fn where_all_have_ended_the_journal_is_true()
    ensures journal { (s : Setting) (words : ℕ) (now : Moment) (lines : List JobLine)
        → (told : StoriesHold s words now.marks now.journal now.jobs)
        → HandlesAgree s told.lasts now.journal now.jobs now.calls → AreLinesOf now.jobs lines → IsTrueJournal s now.journal }
    ensures ends { (s : Setting) (words : ℕ) (now : Moment) (lines : List JobLine) → StoriesHold s words now.marks now.journal now.jobs
        → AreLinesOf now.jobs lines → AreEnds s (length now.journal) (progress_of s.script now.journal).jobs lines }
    ensures words { (before words : List ℕ) (jobs : List JobView) (lines : List JobLine) → WordsAgree before words jobs
        → AreLinesOf jobs lines → words ≡ before }
    ensures calls { (s : Setting) (words : ℕ) (now : Moment) (lines : List JobLine) → IsScripted s.script
        → (told : StoriesHold s words now.marks now.journal now.jobs)
        → HandlesAgree s told.lasts now.journal now.jobs now.calls → AreLinesOf now.jobs lines → AreCalled s.script now.journal now.calls }
{}

/// Each entry of a true journal is accounted for.
pub fn each_entry_is_accounted_for()
    ensures { (s : Setting) (journal : List Entry) → IsScripted s.script → IsTrueJournal s journal → AreAccounted s journal }
{}

/// Where each job was done, each transaction of each job has the one entry by which it was done with.
pub fn where_all_are_done_all_is_complete()
    ensures { (s : Setting) (now : Moment) (lines : List JobLine) → IsScripted s.script → IsTrueJournal s now.journal
        → AreEnds s (length now.journal) (progress_of s.script now.journal).jobs lines → all_done lines ≡ true
        → IsComplete s.script now.journal }
{}
