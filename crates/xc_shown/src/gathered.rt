ghost use Rattle.std.specs.Prelude.{◌≡◌, OnOk, IfOk};
ghost use Rattle.xc_shown.specs.Parting.{nothing_gathered, outcome_with, shown_with, with_line, with_lines};

use crate::front::FrontList;
use crate::shown::Shown;
use std::alloc::Global;
use std::mem;
use xc_data::{
    Call, Cause, Entry, HeldList, Items, LateEnd, LateList, NoMemory, Outcome, RecordList, Reply,
    Report, UndoEnd,
};
use xc_lines::{EffectShown, Head, UndoKind};
use xc_sheet::Line;

/// What was read of a text from its end on: the lines of an entry up to its first line, the entries behind it, and the lines
/// behind those.
#[derive(Drop)]
pub struct Gathered {
    pub calls: FrontList<Call>,
    pub replies: FrontList<Reply>,
    pub late: FrontList<LateEnd>,
    /// From the oldest on, which is read first.
    pub records: Items<(UndoKind, UndoEnd)>,
    pub effects: FrontList<EffectShown>,
    pub held: HeldList,
    pub entries: FrontList<Shown>,
    pub tail: FrontList<Line>,
}

// How an entry with this cause ended, or with none and these ends of late calls.
fn outcome_with(alloc: Global, cause: Option<Cause>, late: LateList) -> Outcome
    ensures { result ≡ outcome_with cause late }
{
    match cause {
        None => Outcome::Committed { late },
        Some(cause) => Outcome::Aborted(Report {
            cause,
            records: RecordList::new(alloc),
        }),
    }
}

impl Gathered {
    /// Nothing is read yet. It takes no memory.
    pub fn new(alloc: Global) -> Self
        ensures { result ≡ nothing_gathered }
    {
        Gathered {
            calls: FrontList::new(alloc),
            replies: FrontList::new(alloc),
            late: FrontList::new(alloc),
            records: Items::new(alloc),
            effects: FrontList::new(alloc),
            held: HeldList::new(alloc),
            entries: FrontList::new(alloc),
            tail: FrontList::new(alloc),
        }
    }

    // Takes the lines that were read of an entry behind its first line.
    fn take_shown(&mut self, alloc: Global, head: Head) -> Result<Shown, NoMemory>
        ensures shown { IfOk result (λ shown. shown ≡ shown_with head self.old) }
        ensures left { OnOk result (self.new ≡ record nothing_gathered { entries = self.old.entries; tail = self.old.tail }) }
    {
        let late = self.late.take(alloc)?;
        Ok(Shown {
            entry: Entry {
                tx: head.tx,
                job: head.job,
                rank: head.rank,
                began: head.began,
                calls: self.calls.take(alloc)?,
                replies: self.replies.take(alloc)?,
                held: mem::replace(&mut self.held, HeldList::new(alloc)),
                outcome: outcome_with(alloc, head.cause, late),
            },
            records: mem::replace(&mut self.records, Items::new(alloc)),
            effects: self.effects.take(alloc)?,
        })
    }

    /// One line more, which stands before the others.
    pub fn add(&mut self, alloc: Global, line: Line) -> Result<(), NoMemory>
        ensures { OnOk result (self.new ≡ with_line line self.old) }
    {
        match line {
            Line::Head(head) => {
                let shown = self.take_shown(alloc, head)?;
                self.entries.put(shown)
            }
            Line::Call(call, reply) => {
                self.calls.put(call)?;
                self.replies.put(reply)
            }
            Line::Late { end, .. } => self.late.put(end),
            Line::Undo { kind, end, .. } => self.records.push((kind, end)),
            Line::Remains(effect) => self.effects.put(effect),
            Line::Held(claims) => {
                self.held = claims;
                Ok(())
            }
            Line::Job { .. } | Line::Word { .. } | Line::Kept(_) | Line::Total { .. } => {
                self.tail.put(line)
            }
        }
    }
}

/// All lines of a text, from the last one on.
pub fn gather(alloc: Global, lines: Items<Line>) -> Result<Gathered, NoMemory>
    ensures { IfOk result (λ all. all ≡ with_lines lines nothing_gathered) }
{
    let mut rest = lines.into_vec();
    let mut gathered = Gathered::new(alloc);
    while let Some(line) = rest.pop() {
        gathered.add(alloc, line)?;
    }
    Ok(gathered)
}
