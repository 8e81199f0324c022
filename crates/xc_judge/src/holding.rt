ghost use Rattle.std.specs.Bool.{Decides};
ghost use Rattle.std.specs.Prelude.{◌≡◌, ◌≤◌, List, IfOk, length};
ghost use Rattle.xc_data.specs.Claims.{holding};
ghost use Rattle.xc_data.specs.declared.claim.Claim.{Claim as PlainClaim};
ghost use Rattle.xc_judge.specs.Ran.{IsRan};
ghost use Rattle.xc_model.specs.EntryEnds.{IsHeld, IsHeldAt, IsPartOf, next_claims};
ghost use Rattle.xc_model.specs.Progress.{body_of};
ghost use Rattle.xc_world.specs.Run.{BodyResult};

use crate::Progress;
use crate::ran::Ran;
use crate::records::is_starved;
use arrayvec::ArrayVec;
use std::alloc::Global;
use xc_data::{Cause, Claim, Entry, KeptClaim, NoMemory, Outcome};
use xc_machine::hold;
use xc_script::Ask;
use xc_world::push_claims;

// ---- lists of claims

// Two claims are the same.
fn is_same(a: &Claim, b: &Claim) -> bool
    ensures { Decides result (a.now ≡ b.now) }
{
    a == b
}

// An entry lists these claims.
fn are_these(mut held: &[Claim], mut listed: &[KeptClaim]) -> bool
    ensures { Decides result (listed.entry.now ≡ held.entry.now) }
{
    while let [claim, held_behind @ ..] = held {
        let [other, listed_behind @ ..] = listed else {
            return false;
        };
        if !is_same(&other.claim(), claim) {
            return false;
        }
        held = held_behind;
        listed = listed_behind;
    }
    listed.is_empty()
}

// Another list of the same claims.
fn copied(alloc: Global, held: &[Claim]) -> Result<Vec<Claim>, NoMemory>
    ensures { IfOk result (λ copy. copy.items ≡ held.now) }
{
    let mut copy = Vec::new(alloc);
    for claim in held {
        copy.push(claim.again())?;
    }
    Ok(copy)
}

// With some part of these claims, in their order, an entry lists what is held. It tries each part: a call has two claims at most.
fn holds_part(
    alloc: Global,
    held: &[Claim],
    claims: &[Claim],
    listed: &[KeptClaim],
) -> Result<bool, NoMemory>
    ensures { IfOk result (λ yes. Decides yes
        ((more : List PlainClaim) × IsPartOf more claims.now × (listed.now ≡ holding held.now more))) }
{
    let [_, rest @ ..] = claims else {
        return Ok(are_these(held, listed));
    };
    let alone = holds_part(alloc, held, rest, listed)?;
    if alone {
        return Ok(true);
    }
    let mut more = copied(alloc, held)?;
    hold(&mut more, &claims[..1])?;
    let yes = holds_part(alloc, more.as_slice(), rest, listed)?;
    Ok(yes)
}

impl Ran {
    /// What the call claims that is asked next; nothing where none is.
    pub(crate) fn wanted(&self, last: &Ask) -> ArrayVec<Claim, 2>
        requires few { length self.now.world.words ≤ 4096 }
        ensures { (b : BodyResult) → self.now.world ≡ b.world → self.now.me.value ≡ b.me → result.items ≡ next_claims b last.now }
    {
        let mut claims = ArrayVec::new();
        if let Ask::Call(call) = last {
            push_claims(&mut claims, call, &self.me, self.world.words().len() as u32);
        }
        claims
    }
}

impl Progress {
    // An aborted transaction held what its calls claimed; without memory it may have claimed for the next call too.
    fn holds_at(
        &self,
        ran: &Ran,
        last: &Ask,
        entry: &Entry,
        cause: &Cause,
    ) -> Result<bool, NoMemory>
        requires ran { IsRan ran.now (body_of self.now.state entry.now) entry.now.tx }
        ensures { IfOk result (λ yes. Decides yes (IsHeldAt (body_of self.now.state entry.now) last.now cause.now entry.now.held)) }
    {
        let held = ran.traced.replied.held.as_slice();
        if !is_starved(cause) {
            return Ok(are_these(held, entry.held.as_slice()));
        }
        let claims = ran.wanted(last);
        let alloc = *self.jobs.allocator();
        let yes = holds_part(alloc, held, claims.as_slice(), entry.held.as_slice())?;
        Ok(yes)
    }

    /// An entry lists what its transaction held.
    pub(crate) fn has_held(&self, ran: &Ran, last: &Ask, entry: &Entry) -> Result<bool, NoMemory>
        requires ran { IsRan ran.now (body_of self.now.state entry.now) entry.now.tx }
        ensures { IfOk result (λ yes. Decides yes (IsHeld (body_of self.now.state entry.now) last.now entry.now.outcome entry.now.held)) }
    {
        match &entry.outcome {
            Outcome::Committed { .. } => {
                let held = ran.traced.replied.held.as_slice();
                Ok(are_these(held, entry.held.as_slice()))
            }
            Outcome::Aborted(report) => {
                let yes = self.holds_at(ran, last, entry, &report.cause)?;
                Ok(yes)
            }
        }
    }
}
