ghost use Rattle.std.specs.Prelude.{◌≡◌, ◌^◌};
ghost use Rattle.xc_lines.specs.Parts.{GivesRead};
ghost use Rattle.xc_lines.specs.Held.{claim_at, behind_claims, further_at};

use crate::cursor::Cursor;
use crate::objects::read_object;
use crate::stop::ReadStop;
use std::alloc::Global;
use xc_data::{Claim, HeldList, KeptClaim, Mode};

/// A held object and its mode.
#[tactic(auto, unfolding(crate::specs::Held::claim_at))]
pub fn read_claim(alloc: Global, text: &mut Cursor) -> Result<KeptClaim, ReadStop>
    ensures { GivesRead result text.new (claim_at text.old) }
{
    let object = read_object(alloc, text)?;
    if text.passes(b" shared") {
        let mode = Mode::Shared;
        return Ok(KeptClaim::of(&Claim { object, mode }));
    }
    let mode = Mode::Exclusive;
    Ok(KeptClaim::of(&Claim { object, mode }))
}

/// More claims, behind those that were read: at most 67,108,864.
#[tactic(auto, using(crate::proofs::HeldSteps::ends_here, crate::proofs::HeldSteps::are_enough, crate::proofs::HeldSteps::goes_on))]
pub fn read_further(alloc: Global, text: &mut Cursor, first: HeldList) -> Result<HeldList, ReadStop>
    ensures { GivesRead result text.new (behind_claims first (further_at (2 ^ 26) text.old)) }
{
    let mut claims = first;
    let mut left: u32 = 67_108_864;
    while left > 0 {
        if !text.passes(b", ") {
            return Ok(claims);
        }
        match read_claim(alloc, text) {
            Ok(claim) => claims.push(claim)?,
            Err(stop) => return Err(stop),
        }
        left -= 1;
    }
    Ok(claims)
}
