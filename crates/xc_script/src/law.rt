//! What the variables hold at the opening. Each function does nothing: its contract is the law.

ghost use Rattle.std.specs.Prelude.{◌≡◌, ℕ, List, Some, None, length, is_some, true};
ghost use Rattle.xc_data.specs.declared.call.Reply.{Reply};
ghost use Rattle.xc_script.specs.Asking.{asks};
ghost use Rattle.xc_script.specs.Blocks.{ask_fits, block_from, all_replied};
ghost use Rattle.xc_script.specs.Ask.{Job, opening_variables};
ghost use Rattle.xc_script.specs.Values.{value_at};
ghost use Rattle.xc_script.specs.Handles.{IsIn, IsLastIn};
ghost use Rattle.xc_script.specs.declared.value.Value.TheVariants.{Handle};
ghost use Rattle.xc_text.specs.Scripts.{IsScript};
ghost use Rattle.xc_text.specs.declared.script.Script.{Script};
ghost use Rattle.xc_world.specs.Opening.{handles_of};

/// The handles of a prologue are as many as the variables that they are in.
pub fn each_handle_is_in_a_variable()
    ensures { (script : Script) → IsScript script → length (handles_of 0 script.outline.prologue.objects) ≡ length script.handles }
{}

/// A variable holds the last handle that is in it.
pub fn a_variable_holds_its_last_handle()
    ensures { (script : Script) (h v : ℕ) → IsScript script → IsLastIn script.handles h v
        → value_at (opening_variables script).values v ≡ Some (Handle h) }
{}

/// A variable that no handle is in holds nothing.
pub fn other_variables_hold_nothing()
    ensures { (script : Script) (v : ℕ) → ((h : ℕ) → IsIn script.handles h v → ⊥) → value_at (opening_variables script).values v ≡ None }
{}

/// A save is asked only where no block is open, and a keep and a back only in one.
pub fn what_is_asked_fits_its_block()
    ensures { (script : Script) (job : Job) (replies : List Reply) → IsScript script
        → ask_fits (is_some (all_replied (block_from script job) replies).saved)
        (asks (all_replied (block_from script job) replies).walk) ≡ true }
{}
