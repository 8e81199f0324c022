ghost use Rattle.std.specs.Prelude.{ℕ, List, IsTrue};
ghost use Rattle.xc_data.specs.declared.private.Private.{Private};
ghost use Rattle.xc_world.specs.World.{World};
ghost use Rattle.xc_data.specs.declared.call.CallWithAnswer.{CallWithAnswer};
ghost use Rattle.xc_world.specs.Sound.{IsSound};
ghost use Rattle.xc_world.specs.Run.{body, body_fits};
ghost use Rattle.xc_world.specs.Trail.{all_undone};
ghost use Rattle.xc_world.specs.Undoing.{BroughtBack};

/// Undoing all records of a body, the newest first, brings back the world of its begin, outside the
/// words and what was taken from pipes and pairs.
pub fn undone_in_reverse_all_is_as_before()
    ensures { (w : World) (me : Private) (tx : ℕ) (asked : List CallWithAnswer) → IsSound w me tx → IsTrue (body_fits w me tx asked)
        → BroughtBack w (all_undone (body w me tx asked).world (body w me tx asked).trail) }
{}
