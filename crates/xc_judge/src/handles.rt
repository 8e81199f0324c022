ghost use Rattle.std.specs.Prelude.{◌≡◌, ◌<◌, ◌++◌, length, replicate, slice_set, OnOk};

use xc_data::{NoMemory, Place};

/// So many jobs more have these handles.
pub(crate) fn push_copies(
    handles: &mut Vec<[Place; 256]>,
    places: &[Place; 256],
    count: usize,
) -> Result<(), NoMemory>
    ensures { OnOk result (handles.new.items ≡ handles.old.items ++ replicate count places.now) }
{
    for _ in 0..count {
        handles.push(*places)?;
    }
    Ok(())
}

/// The job at a place has these handles, and so have as many jobs more as it started.
pub(crate) fn hand_on(
    handles: &mut Vec<[Place; 256]>,
    at: usize,
    places: &[Place; 256],
    count: usize,
) -> Result<(), NoMemory>
    requires { at < length handles.old.items }
    ensures { OnOk result (handles.new.items ≡ slice_set handles.old.items at places.now ++ replicate count places.now) }
{
    handles[at] = *places;
    push_copies(handles, places, count)
}
