ghost use Rattle.std.specs.Prelude.{◌≡◌, false, ◌<◌, replicate, position, length, Some, IfSome};
ghost use Rattle.xc_data.specs.declared.private.Place.{Place};
ghost use Rattle.xc_data.specs.declared.private.Place.TheVariants.{Vacant};
ghost use Rattle.xc_data.specs.Private.{place_of, is_vacant, lowest_vacant, with_place};

use crate::Num;

/// What one of a job's 256 handles is open at.
#[derive(Clone, Copy)]
pub enum Place {
    Vacant,
    File { num: Num, at: u32 },
    Pipe(Num),
    Pair { num: Num, side: u8 },
}

/// A job's handles, and what its transaction has made and stored.
#[derive(Clone, Copy)]
pub struct Private {
    pub places: [Place; 256],
    pub made: u16,
    pub stored: u32,
}

fn first_vacant(places: &[Place]) -> Option<usize>
    ensures value { result ≡ position is_vacant places.now }
    ensures bound { IfSome result (λ at. at < length places.now) }
{
    places.iter().position(|place| place.is_vacant())
}

impl Private {
    /// No handle is open, nothing is made or stored yet.
    pub fn new() -> Private
        ensures { result ≡ record { places = replicate 256 Vacant; made = 0; stored = 0 } }
    {
        Private {
            places: [Place::Vacant; 256],
            made: 0,
            stored: 0,
        }
    }

    /// What stands at a handle; 65,535 and the like are vacant.
    pub fn place(&self, h: u16) -> Place
        ensures value { result ≡ place_of self.now.places h }
        ensures open { is_vacant result ≡ false → h < 256 }
    {
        match self.places.get(h as usize) {
            Some(place) => *place,
            None => Place::Vacant,
        }
    }

    /// Opens or closes a handle, which is below 256.
    pub fn set_place(&mut self, h: u16, place: Place)
        requires { h < 256 }
        ensures { self.new ≡ with_place self.old h place }
    {
        self.places[h as usize] = place;
    }

    /// The lowest vacant place.
    pub fn vacant(&self) -> Option<u16>
        ensures value { result ≡ lowest_vacant self.now.places }
        ensures bound { IfSome result (λ h. h < 256) }
    {
        match first_vacant(&self.places) {
            Some(at) => Some(at as u16),
            None => None,
        }
    }
}

impl Place {
    /// Whether nothing is open here.
    pub fn is_vacant(&self) -> bool
        ensures { result ≡ is_vacant self.now }
    {
        matches!(self, Place::Vacant)
    }
}
