//! Masks: a bit for each lane.

ghost use Rattle.std.specs.Int.{w64, trailing_zeros};
ghost use Rattle.std.specs.Prelude.{◌≡◌, ◌≤◌, ◌<◌, ◌+◌, ◌==◌, not, map, drop, length, if◌then◌else◌, List, Bool, ℕ};
ghost use Rattle.std.specs.List.{prefix_len};
ghost use lib.Lanes.{mask_l};

/// How many bytes are looked at at once.
pub const LANES: usize = 16;

/// The place of the lowest bit, and the number of lanes where no bit is set.
pub fn first_set(mask: u64) -> usize
    ensures { result ≡ (if mask == 0 then 16 else trailing_zeros w64 mask) }
{
    if mask == 0 {
        return LANES;
    }
    mask.trailing_zeros() as usize
}

/// The place of the lowest bit from a place on; none of the lanes' places where none is set. A bit above them is set
/// in any case, so none is looked for in vain.
pub fn next_set(mask: u64, from: usize) -> usize
    requires { from < 64 }
    ensures bound { (from ≤ result) × (result ≤ from + 16) }
    ensures shown { (p : ℕ → Bool) (xs : List ℕ) → length xs ≡ 16 → mask ≡ mask_l (map p xs) → result < 16
        → result ≡ from + prefix_len (λ x. not (p x)) (drop from xs) }
    ensures past { (p : ℕ → Bool) (xs : List ℕ) → length xs ≡ 16 → mask ≡ mask_l (map p xs) → 16 ≤ result
        → 16 ≤ from + prefix_len (λ x. not (p x)) (drop from xs) }
{
    let behind = (mask >> from) | (1 << LANES);
    from + behind.trailing_zeros() as usize
}
