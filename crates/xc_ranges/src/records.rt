ghost use Rattle.std.specs.List.{AllByRecursion};
ghost use Rattle.xc_lines.specs.Ranges.{IsCauseInRange, IsUndoEndInRange};
ghost use Rattle.xc_sheet.specs.EndRanges.{IsRecordInRange, IsUndoInRange};

use crate::parts::{bytes, name, num, number, object};
use xc_data::{Cause, Undo, UndoEnd};

/// A cause is within its ranges.
pub(crate) fn cause(cause: &Cause)
    ensures { IsCauseInRange cause.now }
{
    match cause {
        Cause::Asked | Cause::NoMemory => {}
        Cause::Conflict {
            object: met,
            holder: other,
            at,
        }
        | Cause::Revoked {
            object: met,
            by: other,
            at,
        } => {
            object(met);
            number(*other);
            number(*at);
        }
        Cause::Stuck { failed } => number(*failed),
    }
}

// What a record has is.
fn undo(undo: &Undo)
    ensures { IsUndoInRange undo.now }
{
    match undo {
        Undo::Overwrite {
            file,
            at,
            after,
            ..
        }
        | Undo::Append {
            file,
            from: at,
            after,
            ..
        } => {
            num(file);
            number(*at);
            bytes(after.as_slice());
        }
        Undo::Create {
            name: named,
            num: made,
        } => {
            name(named);
            num(made);
        }
        Undo::Rename { from, to } => {
            name(from);
            name(to);
        }
        Undo::NewPipe(made) | Undo::NewPair(made) => num(made),
    }
}

// How a compensation ended is.
fn undo_end(end: &UndoEnd)
    ensures { IsUndoEndInRange end.now }
{
    match end {
        UndoEnd::Undone { faults } => number(*faults),
        UndoEnd::Failed { done, faults } => {
            number(*done);
            number(*faults);
        }
        UndoEnd::Blocked { by } => number(*by),
    }
}

// A record with its end is.
fn record(ended: &(Undo, UndoEnd))
    ensures { IsRecordInRange ended.now }
{
    undo(&ended.0);
    undo_end(&ended.1);
}

/// Records are.
pub(crate) fn records(all: &[(Undo, UndoEnd)])
    ensures { AllByRecursion IsRecordInRange all.now }
{
    let mut rest = all;
    while let [first, behind @ ..] = rest {
        record(first);
        rest = behind;
    }
}
