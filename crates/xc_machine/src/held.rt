ghost use Rattle.std.specs.Prelude.{◌≡◌, map, OnOk};
ghost use Rattle.std.specs.List.{list_any};
ghost use Rattle.xc_data.specs.Claims.{holding, holding_one, is_object, merged};

use xc_data::{Claim, NoMemory};

fn holds(held: &[Claim], claim: &Claim) -> bool
    ensures { result ≡ list_any (λ h. is_object claim.now.object h.object) held.now }
{
    held.iter().any(|h| claim.object == h.object)
}

fn merge(held: &mut Vec<Claim>, claim: &Claim)
    ensures { held.new.items ≡ map (merged claim.now) held.old.items }
{
    for h in held.iter_mut() {
        *h = h.again().merged(claim);
    }
}

fn hold_one(held: &mut Vec<Claim>, claim: &Claim) -> Result<(), NoMemory>
    ensures { OnOk result (held.new.items ≡ holding_one held.old.items claim.now) }
{
    if holds(held.as_slice(), claim) {
        merge(held, claim);
        return Ok(());
    }
    held.push(claim.again())?;
    Ok(())
}

/// What is held gains claims at its end, or has them merged where their objects are held.
pub fn hold(held: &mut Vec<Claim>, claims: &[Claim]) -> Result<(), NoMemory>
    ensures { OnOk result (held.new.items ≡ holding held.old.items claims.now) }
{
    for claim in claims {
        hold_one(held, claim)?;
    }
    Ok(())
}
