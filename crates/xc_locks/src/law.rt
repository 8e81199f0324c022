ghost use Rattle.std.specs.Prelude.{◌≡◌, List};
ghost use Rattle.xc_data.specs.declared.object.Object.{Object};
ghost use Rattle.xc_data.specs.declared.claim.Claim.{Claim};
ghost use Rattle.xc_data.specs.Claims.{holding};
ghost use Rattle.xc_locks.specs.Table.{claimed, mode_in};

/// What a transaction holds in the table follows the list of what it holds: where both are the same
/// before claims, they are the same after them.
pub fn a_row_follows_the_held_list()
    ensures { (held claims : List Claim) (o : Object) → claimed (mode_in held o) claims o ≡ mode_in (holding held claims) o }
{}
