ghost use Rattle.std.specs.Prelude.{◌≡◌};
ghost use Rattle.xc_generator.specs.Draws.{drawn, next, state};
ghost use Rattle.xc_generator.specs.Generated.{transfer};

use crate::transfer::Transfer;

const MULTIPLIER: u64 = 6364136223846793005;

const INCREMENT: u64 = 1442695040888963407;

/// Numbers that follow from a seed, one after another.
#[derive(Drop)]
pub struct Draws {
    /// The seed, before the first draw.
    pub state: u64,
}

impl Draws {
    #[tactic(auto, unfolding(crate::specs::Draws::state))]
    fn draw(&mut self) -> u64
        ensures state { self.new.state ≡ next self.old.state }
        ensures value { result ≡ drawn self.old.state 1 }
    {
        self.state = self.state.wrapping_mul(MULTIPLIER).wrapping_add(INCREMENT);
        self.state >> 33
    }

    /// The next transfer, by three draws.
    #[tactic(auto, unfolding(crate::specs::Draws::state))]
    pub fn transfer(&mut self) -> Transfer
        ensures state { self.new.state ≡ state self.old.state 3 }
        ensures value { result ≡ transfer self.old.state 0 }
    {
        let from = self.draw() % 64;
        let to = self.draw() % 64;
        let amount = self.draw() % 10 + 1;
        Transfer { from, to, amount }
    }
}
