ghost use Rattle.std.specs.Prelude.{◌≡◌, ◌+◌, IfOk, IfErr};

use std::alloc::Global;

/// A sum, and each number that was added.
#[derive(Drop)]
pub struct Counter {
    pub(crate) sum: u64,
    added: Vec<u64>,
}

/// Why a number wasn't added.
#[derive(Clone, Copy)]
pub(crate) enum Refusal {
    // The sum would have more than 64 bits.
    TooLarge,
    NoMemory,
}

impl Counter {
    pub(crate) fn new(alloc: Global) -> Counter
        ensures { result.sum ≡ 0 }
    {
        Counter {
            sum: 0,
            added: Vec::new(alloc),
        }
    }

    // The sum stays where the number is refused.
    pub(crate) fn add(&mut self, n: u64) -> Result<(), Refusal>
        ensures ok { IfOk result (λ _. self.new.sum ≡ self.old.sum + n) }
        ensures err { IfErr result (λ _. self.new.sum ≡ self.old.sum) }
    {
        let Some(sum) = self.sum.checked_add(n) else {
            return Err(Refusal::TooLarge);
        };
        let Ok(()) = self.added.push(n) else {
            return Err(Refusal::NoMemory);
        };
        self.sum = sum;
        Ok(())
    }
}
