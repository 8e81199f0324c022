ghost use Rattle.std.specs.Prelude.{◌≡◌, ◌<◌, ◌++◌, ℕ, IfOk, OnOk, map};
ghost use Rattle.xc_data.specs.Limits.{KeepsLimits};
ghost use Rattle.xc_judge.specs.Judged.{IsOpenTo};
ghost use Rattle.xc_model.specs.Course.{opening_course, standing_anew};

use crate::handles::push_copies;
use crate::standing::Standing;
use std::alloc::Global;
use std::marker::Model;
use xc_data::{Ident, NoMemory, Outline, Place};
use xc_machine::World;
use xc_world::opening_private;

/// Where a journal led so far: the plain machine's world and the handles of each started job, the started jobs, and how many entries
/// led here.
#[derive(Drop)]
pub struct Progress {
    pub(crate) world: World,
    pub(crate) handles: Vec<[Place; 256]>,
    pub(crate) jobs: Vec<Standing>,
    pub(crate) entered: u32,
}

impl Model for Progress {
    ghost use Rattle.std.specs.Coded.{codes};
    ghost use Rattle.std.specs.Prelude.{◌≡◌, ◌≤◌, length};
    ghost use Rattle.xc_world.specs.World.{coded_world};
    ghost use Rattle.xc_model.specs.Course.{Course};

    ghost Value = { Course };

    ghost coded = { Prim.hlevel (codes, coded_world) };

    ghost view = { λ a.
        record {
          state = record { world = a.world; handles = a.handles.items };
          jobs = a.jobs.items;
          entered = a.entered;
          words = a.world.words;
        } };

    ghost invariant = { λ a. (length a.handles.items ≡ length a.jobs.items) × (length a.world.words ≤ 4096) };
}

/// A job of each of these blocks, before its first transaction is tried.
pub(crate) fn push_jobs(
    alloc: Global,
    jobs: &mut Vec<Standing>,
    blocks: &[Ident],
    since: u32,
) -> Result<(), NoMemory>
    ensures { OnOk result (jobs.new.items ≡ jobs.old.items ++ map (λ block. standing_anew block since) blocks.now) }
{
    for block in blocks {
        jobs.push(Standing::anew(alloc, *block, since))?;
    }
    Ok(())
}

impl Progress {
    /// Before the first entry.
    pub fn new(alloc: Global, outline: &Outline) -> Result<Progress, NoMemory>
        requires { KeepsLimits outline.now }
        ensures value { IfOk result (λ progress. progress ≡ opening_course outline.now) }
        ensures open { IfOk result (λ progress. (tx : ℕ) → 0 < tx → IsOpenTo progress tx) }
    {
        let world = World::of(alloc, outline)?;
        let me = opening_private(alloc, outline)?;
        let mut handles = Vec::new(alloc);
        push_copies(&mut handles, &me.places, outline.jobs.len())?;
        let mut jobs = Vec::new(alloc);
        push_jobs(alloc, &mut jobs, outline.jobs.as_slice(), 0)?;
        Ok(Progress {
            world,
            handles,
            jobs,
            entered: 0,
        })
    }
}
