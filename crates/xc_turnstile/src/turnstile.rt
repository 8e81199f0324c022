ghost use Rattle.std.specs.Prelude.{◌≡◌, ℕ, ◌+◌, ◌*◌, ◌%◌, ◌^◌, ◌<◌, ◌≤◌, ◌⊎◌, ◌↔◌, [], ◌∷◌, length};
ghost use Rattle.std.specs.Prelude.{Option, Some, None, IfOk, IfErr, IsSome};
ghost use Rattle.xc_turnstile.specs.Views.{BeginsWith, HasPlace, PlacesRise, first_view, left_view, kept_half, given_half, views_met};
ghost use Rattle.xc_turnstile.specs.Enterings.{HasEntered};

use crate::chronicle::Chronicle;
use crate::rule::{Enter, Halve, Leave, Look, Meet, Rule};
use crate::view::View;
use atomic_table::{Seat, Table};
use std::alloc::{AllocFailed, Global};
use std::marker::Model;
use std::snapshot::Snapshot;

/// A value that one pass at a time holds. Its word is twice the journal's length, and one more while the value is held.
///
/// None of its calls waits. `new` alone takes memory. It is not let go, but ended by `close` or `abandon`.
/// A worker that finds another inside learns how long the journal was.
pub struct Turnstile<V: Chronicle> {
    table: Table<Option<V>, View<V::Entry, V::Event, V::Origin>, Snapshot<V>, Rule<V>, Global>,
    ghost sized: { (table.shared.table_id.words ≡ 1) × (table.shared.table_id.slots ≡ 1) },
}

/// The right to try to enter, and what was seen by it.
#[derive(Drop)]
pub struct Pass<V: Chronicle> {
    shares: u64,
    seat: Seat<Option<V>, View<V::Entry, V::Event, V::Origin>>,
}

impl<V: Chronicle> Model for Pass<V> {
    ghost use Rattle.std.specs.Prelude.{◌≡◌, ◌<◌, false, []};
    ghost use Rattle.xc_turnstile.specs.Known.{Known};

    ghost Value = { Known V.Entry V.Event V.Origin };

    ghost view = { λ p. record { table = p.seat.table_id; view = p.seat.me.0 } };

    ghost invariant = { λ p. (0 < p.shares) × (p.shares ≡ p.seat.me.0.shares) × (p.seat.me.0.inside ≡ false) × (p.seat.me.1 ≡ []) };
}

/// The duty to leave, which is not let go, and what the pass knew when it entered.
pub struct Hold<V: Chronicle> {
    shares: u64,
    seat: Seat<Option<V>, View<V::Entry, V::Event, V::Origin>>,
}

impl<V: Chronicle> Model for Hold<V> {
    ghost use Rattle.std.specs.Prelude.{◌≡◌, ◌<◌, true, [], ◌∷◌, None};
    ghost use Rattle.xc_turnstile.specs.Known.{Known};

    ghost Value = { Known V.Entry V.Event V.Origin };

    ghost view = { λ p. record { table = p.seat.table_id; view = p.seat.me.0 } };

    ghost invariant = { λ p. (0 < p.shares) × (p.shares ≡ p.seat.me.0.shares) × (p.seat.me.0.inside ≡ true)
        × (p.seat.me.1 ≡ (0, None) ∷ []) };
}

/// Whether a pass entered.
pub enum Entered<V: Chronicle> {
    /// It did: the value.
    Inside(V, Hold<V>),
    /// Another is inside: the word that was found.
    Held(Pass<V>, u64),
}

impl<V: Chronicle> Pass<V> {
    /// Its part of the right to close. The first pass has 2^32 shares, which are all that there are.
    pub fn shares(&self) -> u64
        ensures { result ≡ self.now.view.shares }
    {
        self.shares
    }
}

// The one slot of a table, with this value.
fn slot_of<V>(alloc: Global, value: V) -> Result<Vec<Option<V>>, V>
    ensures ok { IfOk result (λ v. v.items ≡ Some value ∷ []) }
    ensures err { IfErr result (λ v. v ≡ value) }
{
    let mut slots = Vec::new(alloc);
    match slots.push(Some(value)) {
        Ok(()) => Ok(slots),
        Err(failed) => {
            slots.destroy_empty();
            let AllocFailed { value } = failed;
            let Some(value) = value else { unreachable!() };
            Err(value)
        }
    }
}

// The value of the one slot.
fn only<V>(mut slots: Vec<Option<V>>) -> V
    requires { (v : V) × (slots.items ≡ Some v ∷ []) }
    ensures { slots.items ≡ Some result ∷ [] }
{
    let Some(slot) = slots.pop() else {
        unreachable!()
    };
    slots.destroy_empty();
    let Some(value) = slot else { unreachable!() };
    value
}

impl<V: Chronicle> Turnstile<V> {
    /// A turnstile with this value, and the pass that has all shares. Where memory is out the value comes back.
    pub fn new(alloc: Global, value: V) -> Result<(Turnstile<V>, Pass<V>), V>
        requires { length (V.meaning.journal value) < 2 ^ 32 }
        ensures ok { IfOk result (λ t. (t.1.table ≡ t.0.table.shared.table_id)
            × (t.1.view ≡ first_view (V.meaning.origin value) (V.meaning.journal value))) }
        ensures err { IfErr result (λ v. v ≡ value) }
    {
        let word = value.len() * 2;
        let about = Snapshot::of(&value);
        let slots = slot_of(alloc, value)?;
        match Table::new(alloc, &[word], slots, &about) {
            Ok((table, seat)) => Ok((
                Turnstile { table },
                Pass {
                    shares: 1 << 32,
                    seat,
                },
            )),
            Err(refused) => Err(only(refused.slots)),
        }
    }

    /// Whether a pass is inside. The next moment it may be otherwise, so no clause tells what the answer says. It changes nothing:
    /// while many look, the word stays in each one's cache.
    pub fn is_held(&self) -> bool {
        self.table.shared.peek(0) % 2 == 1
    }

    /// Takes the value, unless another has it. One step on the word.
    pub fn try_enter(&self, pass: Pass<V>) -> Entered<V>
        requires { pass.table ≡ self.now.table.shared.table_id }
        ensures { HasEntered V.meaning pass result }
    {
        let Pass { shares, mut seat } = pass;
        let shared = &self.table.shared;
        let found = shared.fetch_or::<Enter>(&mut seat, 0, 1);
        if found % 2 == 0 {
            let Some(value) = shared.exchange(&mut seat, 0, None) else {
                unreachable!()
            };
            Entered::Inside(value, Hold { shares, seat })
        } else {
            Entered::Held(Pass { shares, seat }, found)
        }
    }

    /// Puts the value back. One entering encloses one event at most: the count of events is the one that was handed out, or
    /// one more.
    pub fn leave(&self, value: V, hold: Hold<V>) -> Pass<V>
        requires table { hold.table ≡ self.now.table.shared.table_id }
        requires begins { BeginsWith (V.meaning.journal value) hold.view.given }
        requires origin { hold.view.origin ≡ Some (V.meaning.origin value) }
        requires event { (V.meaning.count value ≡ hold.view.counted)
            ⊎ (IsSome (V.meaning.last value) × (V.meaning.count value ≡ (hold.view.counted + 1) % 2 ^ 64)) }
        requires room { length (V.meaning.journal value) < 2 ^ 32 }
        ensures table { result.table ≡ hold.table }
        ensures view { result.view ≡ left_view (V.meaning.journal value) (V.meaning.count value) (V.meaning.last value) hold.view }
    {
        let Hold { shares, mut seat } = hold;
        let word = value.len() * 2;
        let shared = &self.table.shared;
        let before = shared.exchange(&mut seat, 0, Some(value));
        let None = before else { unreachable!() };
        shared.store::<Leave>(&mut seat, 0, word);
        Pass { shares, seat }
    }

    /// A second pass with half of the shares, rounded down, that has seen the same.
    pub fn split(&self, pass: &mut Pass<V>) -> Pass<V>
        requires table { pass.old.table ≡ self.now.table.shared.table_id }
        requires shares { 2 ≤ pass.old.view.shares }
        ensures tables { (pass.new.table ≡ pass.old.table) × (result.table ≡ pass.old.table) }
        ensures kept { pass.new.view ≡ kept_half pass.old.view }
        ensures given { result.view ≡ given_half pass.old.view }
    {
        let half = pass.shares / 2;
        let seat = self.table.shared.split_seat::<Halve>(&mut pass.seat);
        pass.shares -= half;
        Pass { shares: half, seat }
    }

    /// One pass of two. It keeps the longer of the two journals that they have seen, and the events of `a` before those of `b`.
    pub fn meet(&self, a: Pass<V>, b: Pass<V>) -> Pass<V>
        requires table { (a.table ≡ self.now.table.shared.table_id) × (b.table ≡ self.now.table.shared.table_id) }
        requires shares { a.view.shares + b.view.shares < 2 ^ 64 }
        ensures table { result.table ≡ a.table }
        ensures view { result.view ≡ views_met a.view b.view }
        ensures seen { BeginsWith a.view.seen b.view.seen ⊎ BeginsWith b.view.seen a.view.seen }
        ensures rises { PlacesRise 0 result.view.mine }
        ensures apart { (k : ℕ) → HasPlace k a.view.mine → HasPlace k b.view.mine → ⊥ }
        ensures places { (k : ℕ) → HasPlace k result.view.mine ↔ (HasPlace k a.view.mine ⊎ HasPlace k b.view.mine) }
    {
        let Pass { shares, mut seat } = a;
        let Pass {
            shares: more,
            seat: other,
        } = b;
        self.table.shared.join_seat::<Meet>(&mut seat, other);
        self.table.shared.load::<Look>(&mut seat, 0);
        Pass {
            shares: shares + more,
            seat,
        }
    }

    /// The value, for the pass that has all shares.
    pub fn close(self, pass: Pass<V>) -> V
        requires table { pass.table ≡ self.table.shared.table_id }
        requires shares { pass.view.shares ≡ 2 ^ 32 }
        ensures { BeginsWith (V.meaning.journal result) pass.view.seen × (pass.view.origin ≡ Some (V.meaning.origin result)) }
    {
        let Turnstile { table } = self;
        let Pass { shares: _, seat } = pass;
        let mut closed = table.close_with(seat);
        let slot = closed.take(0);
        closed.free();
        let Some(value) = slot else { unreachable!() };
        value
    }

    /// Ends a turnstile whose value was handed out and stays with the caller.
    pub fn abandon(self, hold: Hold<V>)
    where
        V: Drop,
        requires { hold.table ≡ self.table.shared.table_id }
    {
        let Turnstile { table: _table } = self;
        let Hold {
            shares: _,
            seat: _seat,
        } = hold;
    }
}
