ghost use Rattle.std.specs.Prelude.{ℕ, [], ◌∷◌};
ghost use Rattle.xc_data.specs.Step.{Step};
ghost use Rattle.xc_data.specs.declared.call.Call.{Call};
ghost use Rattle.xc_data.specs.declared.entry.Turn.{Turn};
ghost use Rattle.xc_script.specs.declared.ask.Ask.{Ask};
ghost use Rattle.xc_live.specs.Called.{MakesItsCall};
ghost use Rattle.xc_live.specs.Ended.{AsksAlone};
ghost use Rattle.xc_live.specs.Others.{LeavesAllBut};
ghost use Rattle.xc_station.specs.Jobs.{job_views};
ghost use Rattle.xc_station.specs.Stations.{HasTurned, StationView};

use xc_host::Host;

/// A begin, a commit and an abort leave each other client as it is; and so does a call, but for those that give way to it.
pub fn clients_leave_each_other<H: Host>()
    ensures begun { (client : ℕ) (answer : Turn) (desk : Step (StationView H)) → HasTurned H.model client desk answer
        → LeavesAllBut (client ∷ []) (job_views desk.old.jobs) (job_views desk.new.jobs) }
    ensures ended { (client : ℕ) (asked : Ask) (desk : Step (StationView H)) → AsksAlone H.model client asked desk
        → LeavesAllBut (client ∷ []) (job_views desk.old.jobs) (job_views desk.new.jobs) }
    ensures called { (client : ℕ) (c : Call) (desk : Step (StationView H)) (made : MakesItsCall H.model client c desk)
        → LeavesAllBut (client ∷ made.victims) (job_views desk.old.jobs) (job_views desk.new.jobs) }
{}
