ghost use Rattle.std.specs.Prelude.{◌≡◌, ◌<◌, ◌+◌, ◌*◌, ◌/◌, ◌%◌, ◌^◌};

use std::marker::Model;

/// A number of 32 bits that lies on two bytes.
#[derive(Clone, Copy)]
struct PackedU32 {
    low: u16,
    high: u16,
}

impl Model for PackedU32 {
    ghost use Rattle.std.specs.Prelude.{ℕ, ◌+◌, ◌*◌, ◌/◌, ◌%◌, ◌^◌, ◌<◌};

    ghost Value = { ℕ };

    ghost view = { λ a. a.high * 2 ^ 16 + a.low };

    ghost invariant = { λ a. (a.low < 2 ^ 16) × (a.high < 2 ^ 16) };

    ghost inverse = { λ n. record { low = n % 2 ^ 16; high = n / 2 ^ 16 } };
}

impl PackedU32 {
    #[inline(always)]
    fn of(number: u32) -> PackedU32
        ensures { result ≡ number }
    {
        PackedU32 {
            low: (number % (1 << 16)) as u16,
            high: (number >> 16) as u16,
        }
    }

    #[inline(always)]
    fn number(&self) -> u32
        ensures { result ≡ self.now }
    {
        (self.high as u32) * (1 << 16) + self.low as u32
    }
}

/// A number of 64 bits that lies on two bytes, so that a term has 10 bytes and a statement 32: with a `u64` a term would
/// have 16. Contracts see the number.
#[derive(Clone, Copy)]
pub struct PackedU64 {
    low: PackedU32,
    high: PackedU32,
}

impl Model for PackedU64 {
    ghost use Rattle.std.specs.Prelude.{ℕ, ◌+◌, ◌*◌, ◌/◌, ◌%◌, ◌^◌, ◌<◌};

    ghost Value = { ℕ };

    ghost view = { λ a. a.high * 2 ^ 32 + a.low };

    ghost invariant = { λ a. (a.low < 2 ^ 32) × (a.high < 2 ^ 32) };

    ghost inverse = { λ n. record { low = n % 2 ^ 32; high = n / 2 ^ 32 } };
}

impl PackedU64 {
    /// The parts of a number.
    #[inline(always)]
    pub fn of(number: u64) -> PackedU64
        ensures { result ≡ number }
    {
        PackedU64 {
            low: PackedU32::of((number % (1 << 32)) as u32),
            high: PackedU32::of((number >> 32) as u32),
        }
    }

    /// The number.
    #[inline(always)]
    pub fn number(&self) -> u64
        ensures { result ≡ self.now }
    {
        (self.high.number() as u64) * (1 << 32) + self.low.number() as u64
    }
}
