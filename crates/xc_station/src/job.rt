ghost use Rattle.std.specs.Prelude.{◌≡◌, ◌+◌, ◌<◌, ◌^◌};
ghost use Rattle.xc_model.specs.Moment.{Ended, asked_to_wait};
ghost use Rattle.xc_station.specs.Jobs.{doing_of, fed_doing, fed_turn, is_live, phase_stage, job_view, tx_view, stage_of};

use crate::tx::Tx;
use xc_data::{Ident, JobEnd, Turn};
use xc_model::{Attempts, Phase};
use xc_script::{Ask, JobState};

/// What a job does between two turns.
#[derive(Drop)]
pub enum Activity {
    /// It has no active transaction.
    Idle,
    Active,
    /// Its last transaction was aborted for lack of memory, and no turn of it came since.
    Starved,
    Ended(JobEnd),
}

/// A job that a committing transaction has started. It is live from the transaction's entry on.
#[derive(Drop)]
pub struct Child {
    pub block: Ident,
    pub place: JobState,
    pub tx: Tx,
}

/// A started job that is live, or has ended.
#[derive(Drop)]
pub struct Job {
    pub block: Ident,
    /// Attempts at its next transaction that met a holder or were revoked.
    pub attempts: Option<Attempts>,
    /// How often it was told to wait since it last began a transaction or entered one.
    pub busy: u32,
    pub place: JobState,
    /// What its client has handed in, until it is answered, or its transaction begins or has ended. Of a script's job it is None.
    pub handed: Option<Ask>,
    pub activity: Activity,
    /// Its active transaction; while it has none, the handles of the last one's end stay in it for the next.
    pub tx: Tx,
    /// What its committing transaction has started, in the order of the calls.
    pub children: Vec<Child>,
}

/// The states of a job in the table of turns: what its next turn goes by.
#[derive(Clone, Copy)]
pub enum Stage {
    Idle,
    Running,
    /// A block goes back.
    Backing,
    /// A late call has no end yet.
    Committing,
    /// Every late call has its end.
    Committed,
    /// A record has no end yet.
    Undoing,
    /// Every record has its end.
    Undone,
    Starved,
    Ended,
}

fn phase_now(tx: &Tx) -> Stage
    ensures { result ≡ phase_stage (tx_view tx.now) tx.now.phase }
{
    match &tx.phase {
        Phase::Running => Stage::Running,
        Phase::Backing => Stage::Backing,
        Phase::Committing => {
            if tx.late.has_left() {
                return Stage::Committing;
            }
            Stage::Committed
        }
        Phase::Undoing(_) => {
            if tx.undo.is_undone() {
                return Stage::Undone;
            }
            Stage::Undoing
        }
    }
}

impl Job {
    /// What its next turn goes by.
    pub fn stage(&self) -> Stage
        ensures { result ≡ stage_of (doing_of self.now) }
    {
        match &self.activity {
            Activity::Idle => Stage::Idle,
            Activity::Active => phase_now(&self.tx),
            Activity::Starved => Stage::Starved,
            Activity::Ended(_) => Stage::Ended,
        }
    }

    /// Whether it goes on.
    pub fn is_live(&self) -> bool
        ensures { result ≡ is_live (job_view self.now) }
    {
        !matches!(&self.activity, Activity::Ended(_))
    }

    /// It was told to wait once more.
    pub fn wait(&mut self)
        requires { self.old.busy + 1 < 2 ^ 32 }
        ensures waits { job_view self.new ≡ asked_to_wait (job_view self.old) }
        ensures kept { (self.new.tx ≡ self.old.tx) × (self.new.activity ≡ self.old.activity) }
        ensures children { self.new.children.items ≡ self.old.children.items }
    {
        self.busy += 1;
    }

    /// It ends.
    pub fn end(&mut self, end: &JobEnd) -> Turn
        ensures ended { (job_view self.new ≡ record (job_view self.old) { doing = Ended end.now }) × (result ≡ Turn.Ended end.now) }
        ensures children { self.new.children.items ≡ self.old.children.items }
    {
        self.activity = Activity::Ended(end.again());
        Turn::Ended(end.again())
    }

    /// The turn of one whose last transaction was aborted for lack of memory: of a script it ends; where clients ask it is idle again.
    pub fn feed(&mut self, clients: bool) -> Turn
        ensures fed { (job_view self.new ≡ record (job_view self.old) { doing = fed_doing clients }) × (result ≡ fed_turn clients) }
        ensures children { self.new.children.items ≡ self.old.children.items }
    {
        if clients {
            self.activity = Activity::Idle;
            return Turn::Went;
        }
        self.end(&JobEnd::NoMemory)
    }
}
