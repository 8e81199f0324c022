ghost use Rattle.std.specs.Prelude.{◌≡◌};

use super::notes::Notes;
use std::alloc::Global;
use std::test::Fail;
use xc_data::Chunk;
use xc_model::{Origin, Rules};
use xc_turnstile::{Entered, Pass, Turnstile, enter_two};

fn new_notes(alloc: Global) -> Result<Notes, Fail> {
    let text = Chunk::new(alloc, b"job a\ntx\ncommit\nend\n")?;
    let Ok(script) = xc_text::parse(alloc, &text) else {
        return Err("not parsed")?;
    };
    let rules = Rules {
        attempts: 1,
        patience: 0,
        undo_tries: 1,
    };
    Ok(Notes::new(
        alloc,
        Origin {
            script,
            faults: 0,
            rules,
        },
    ))
}

#[test]
fn two_passes_enter_once_each(rt: HostRuntime) -> Result<(), Fail> {
    let (turnstile, mut a) = match Turnstile::new(rt.alloc(), new_notes(rt.alloc())?) {
        Ok(made) => made,
        Err(_notes) => return Err("no memory")?,
    };
    let b = turnstile.split(&mut a);
    let mut first = |notes: &mut Notes| notes.add(7);
    let mut second = |notes: &mut Notes| notes.add(5);
    let pass = match enter_two(&turnstile, a, b, &mut first, &mut second) {
        Ok(pass) => pass,
        Err((a, b)) => turnstile.meet(a, b),
    };
    let notes = turnstile.close(pass);
    assert_eq!(rt; notes.len(), 2);
    Ok(())
}

// The word that a pass finds which is not to enter.
fn word_found(turnstile: &Turnstile<Notes>, pass: Pass<Notes>) -> u64
    requires { pass.table ≡ turnstile.now.table.shared.table_id }
{
    match turnstile.try_enter(pass) {
        Entered::Held(_, word) => word,
        Entered::Inside(notes, hold) => {
            turnstile.leave(notes, hold);
            0
        }
    }
}

#[test]
fn a_pass_is_held_while_another_is_inside(rt: HostRuntime) -> Result<(), Fail> {
    let (turnstile, mut a) = match Turnstile::new(rt.alloc(), new_notes(rt.alloc())?) {
        Ok(made) => made,
        Err(_notes) => return Err("no memory")?,
    };
    let b = turnstile.split(&mut a);
    match turnstile.try_enter(a) {
        Entered::Inside(notes, hold) => {
            let word = word_found(&turnstile, b);
            turnstile.abandon(hold);
            assert_eq!(rt; word, 1);
            assert_eq!(rt; notes.len(), 0);
            Ok(())
        }
        Entered::Held(a, _) => {
            let pass = turnstile.meet(a, b);
            turnstile.close(pass);
            Err("held")?
        }
    }
}
