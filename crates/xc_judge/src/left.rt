ghost use Rattle.std.specs.Option.{option_copied};
ghost use Rattle.std.specs.Prelude.{◌≡◌, ◌≤◌, ◌<◌, ◌^◌, [], ◌∷◌, length, IfOk, MatchOption};
ghost use Rattle.xc_compensate.specs.Records.{covered};
ghost use Rattle.xc_judge.specs.Left.{IsWriteFront, IsLeftLast, IsNotLeft, NewestShown, count_shown, effect_bytes, whole_records};
ghost use Rattle.xc_script.specs.declared.ask.Ask.TheVariants as ask;
ghost use Rattle.xc_world.specs.Run.{begins};
ghost use Rattle.xc_world.specs.Sound.{IsSound};

use crate::ran::Ran;
use xc_data::{Answer, Call, NoMemory, Undo, UndoEnd};
use xc_lines::EffectShown;

// How many bytes an effect has.
fn effect_len(effect: &EffectShown) -> usize
    ensures value { result ≡ length (effect_bytes effect.now) }
    ensures bound { result < 2 ^ 63 }
{
    match effect {
        EffectShown::Bytes { bytes, .. } | EffectShown::Tail { bytes, .. } => bytes.len(),
        EffectShown::Made { .. } | EffectShown::Moved { .. } => 0,
        EffectShown::Pipe(_) | EffectShown::Pair(_) => 0,
    }
}

// How many bytes a record covers of which so many are restored, by its effect.
fn count_shown(done: u32, effect: Option<&EffectShown>) -> usize
    ensures { result ≡ count_shown done (option_copied effect.entry) }
{
    match effect {
        Some(effect) => done as usize + effect_len(effect),
        None => done as usize,
    }
}

// So many bytes of a write, if it has as many.
fn some_of(count: usize, all: u32) -> Option<u32>
    ensures { MatchOption result ((1 ≤ count) × (count ≤ all) → ⊥) (λ n. (n ≡ count) × (1 ≤ count) × (count ≤ all)) }
{
    if count == 0 || count > all as usize {
        return None;
    }
    Some(count as u32)
}

// So many bytes as a record may cover; of one that is none of a write any number is.
fn front_len(whole: &Undo, count: usize) -> Option<u32>
    ensures { MatchOption result (IsWriteFront count whole.now → ⊥)
        (λ n. (covered whole.now n ≡ covered whole.now count) × IsWriteFront count whole.now) }
{
    match whole {
        Undo::Overwrite { n, .. } | Undo::Append { n, .. } => some_of(count, *n),
        Undo::Create { .. } | Undo::Rename { .. } => Some(0),
        Undo::NewPipe(_) | Undo::NewPair(_) => Some(0),
    }
}

// The record, covering its first n bytes.
fn cover(undo: &mut Undo, n: u32)
    ensures { undo.new ≡ covered undo.old n }
{
    match undo {
        Undo::Overwrite { n: covers, .. } => *covers = n,
        Undo::Append { n: covers, .. } => *covers = n,
        Undo::Create { .. } | Undo::Rename { .. } | Undo::NewPipe(_) | Undo::NewPair(_) => {}
    }
}

// The record of a call that did so many bytes of its write, if it has as many.
fn front_of(mut whole: Undo, count: usize) -> Option<Undo>
    ensures { MatchOption result (IsWriteFront count whole → ⊥) (λ v. (v ≡ covered whole count) × IsWriteFront count whole) }
{
    let n = front_len(&whole, count)?;
    cover(&mut whole, n);
    Some(whole)
}

impl Ran {
    // The record that a call would leave whole, if any.
    fn whole(&self, tx: u32, call: &Call) -> Result<Option<Undo>, NoMemory>
        requires sound { IsSound self.now.world self.now.me.value tx }
        ensures { IfOk result (λ found. MatchOption found (whole_records self.now.world self.now.me.value tx call.now ≡ [])
            (λ undo. whole_records self.now.world self.now.me.value tx call.now ≡ undo ∷ [])) }
    {
        let mut world = self.world.copy()?;
        let mut me = *self.me;
        let reply = world.act(&mut me, tx, call, Answer::Fine)?;
        self.world.record_of(&self.me, tx, call, &reply)
    }

    /// The record that a call without memory left, by how its compensation ended and the effect that is shown last; none where it left
    /// none that is shown so.
    pub(crate) fn left(
        &self,
        tx: u32,
        call: &Call,
        end: UndoEnd,
        effect: Option<&EffectShown>,
    ) -> Result<Option<Undo>, NoMemory>
        requires sound { IsSound self.now.world self.now.me.value tx }
        ensures { let seen : NewestShown = record { end = end; effect = option_copied effect.entry } in
            IfOk result (λ found. MatchOption found
            (IsNotLeft (begins self.now.world self.now.me.value) tx (ask.Call call.now) seen)
            (IsLeftLast (begins self.now.world self.now.me.value) tx (ask.Call call.now) seen)) }
    {
        let Some(whole) = self.whole(tx, call)? else {
            return Ok(None);
        };
        match end {
            // Of what was undone no length is shown: the whole is as true as any front.
            UndoEnd::Undone { .. } => Ok(Some(whole)),
            UndoEnd::Failed { done, .. } => Ok(front_of(whole, count_shown(done, effect))),
            // Nothing newer stands in the way of the newest.
            UndoEnd::Blocked { .. } => Ok(None),
        }
    }
}
