ghost use Rattle.std.specs.Prelude.{◌≡◌, ◌≤◌, ◌<◌, ◌++◌, ◌∷◌, ◌-◌, [], length, replicate, IfOk, OnOk};
ghost use Rattle.xc_data.specs.declared.private.Place.TheVariants.{Vacant};
ghost use Rattle.xc_world.specs.World.{beginning};
ghost use Rattle.xc_data.specs.Limits.{KeepsLimits};
ghost use Rattle.xc_world.specs.Opening.{opening_handles, handles_of};

use std::alloc::Global;
use xc_data::{Items, NoMemory, Num, Opened, Outline, Place, Private};

// The handles that a line opens.
fn push_handles(places: &mut Items<Place>, k: u16, opened: &Opened) -> Result<(), NoMemory>
    ensures { OnOk result (places.new ≡ places.old ++ handles_of k (opened.now ∷ [])) }
{
    let num = Num { tx: 0, k };
    match opened {
        Opened::File { .. } => Ok(()),
        Opened::Pipe { .. } => places.push(Place::Pipe(num)),
        Opened::Pair => {
            places.push(Place::Pair { num, side: 0 })?;
            places.push(Place::Pair { num, side: 1 })
        }
    }
}

fn handles_of(alloc: Global, objects: &[Opened]) -> Result<Items<Place>, NoMemory>
    requires { length objects.now ≤ 4096 }
    ensures { IfOk result (λ places. places ≡ handles_of 0 objects.now) }
{
    let mut places = Items::new(alloc);
    for (line, opened) in objects.iter().enumerate() {
        push_handles(&mut places, line as u16, opened)?;
    }
    Ok(places)
}

// The private state at a begin where these are the first places, and all others are vacant.
fn holding(places: &[Place]) -> Private
    requires { length places.now ≤ 256 }
    ensures { result ≡ beginning (places.now ++ replicate (256 - length places.now) Vacant) }
{
    let mut me = Private::new();
    for (h, place) in places.iter().enumerate() {
        me.set_place(h as u16, *place);
    }
    me
}

/// The private state with which a job of the script begins.
pub fn opening_private(alloc: Global, script: &Outline) -> Result<Private, NoMemory>
    requires { KeepsLimits script.now }
    ensures { IfOk result (λ me. me ≡ beginning (opening_handles script.now)) }
{
    let places = handles_of(alloc, script.prologue.objects.as_slice())?;
    Ok(holding(places.as_slice()))
}
