//! A counter for C, by a handle: the smallest static library over `xc_handle`.
//!
//! C has a struct of one pointer, and sets it to null before the first call. It gives a handle to one call at a time,
//! and copies none. A handle that is null is closed, and each call but `xc_counter_new` says so. A handle that C forgets
//! leaks its counter, and of a copy no call can tell that the counter is gone.
#![tactic(auto)]

ghost use Rattle.std.specs.Prelude.{◌≡◌, ◌≢◌, pos, Some, None, MatchResult};
ghost use Rattle.xc_handle_c.specs.Sums.{sum_of, plus};

mod counter;
mod handle;

pub use counter::Counter;
use counter::Refusal;
pub use handle::CounterHandle;
use std::alloc::Global;

/// The call did what it says.
pub const OK: i32 = 0;

/// The handle is closed: it is null.
pub const CLOSED: i32 = 1;

/// The handle is open already.
pub const OPEN: i32 = 2;

/// There is no memory. Nothing was changed.
pub const NO_MEMORY: i32 = 3;

/// The sum would have more than 64 bits. Nothing was changed.
pub const TOO_LARGE: i32 = 4;

// What C is told of an adding.
fn code_of(done: Result<(), Refusal>) -> i32
    ensures { MatchResult done (λ _. result ≡ pos 0) (λ _. result ≢ pos 0) }
{
    match done {
        Ok(()) => OK,
        Err(Refusal::TooLarge) => TOO_LARGE,
        Err(Refusal::NoMemory) => NO_MEMORY,
    }
}

/// Opens a handle: its sum is 0.
#[unsafe(no_mangle)]
pub extern "C" fn xc_counter_new(alloc: Global, counter: &mut CounterHandle) -> i32
    ensures ok { result ≡ pos 0 → sum_of counter.new.value ≡ Some 0 }
    ensures other { result ≢ pos 0 → counter.new.value ≡ counter.old.value }
{
    if let Some(open) = counter.take(alloc) {
        counter.put(alloc, open);
        return OPEN;
    }
    match Box::new(alloc, Counter::new(alloc)) {
        Ok(new) => {
            counter.put(alloc, new);
            OK
        }
        Err(_) => NO_MEMORY,
    }
}

/// Adds a number.
#[unsafe(no_mangle)]
pub extern "C" fn xc_counter_add(alloc: Global, counter: &mut CounterHandle, n: u64) -> i32
    ensures ok { result ≡ pos 0 → sum_of counter.new.value ≡ plus n (sum_of counter.old.value) }
    ensures closed { counter.old.value ≡ None → result ≡ pos 1 }
    ensures other { result ≢ pos 0 → sum_of counter.new.value ≡ sum_of counter.old.value }
{
    let Some(mut open) = counter.take(alloc) else {
        return CLOSED;
    };
    let done = open.add(n);
    counter.put(alloc, open);
    code_of(done)
}

/// Gives the sum.
#[unsafe(no_mangle)]
pub extern "C" fn xc_counter_get(alloc: Global, counter: &mut CounterHandle, sum: &mut u64) -> i32
    ensures ok { result ≡ pos 0 → sum_of counter.old.value ≡ Some sum.new }
    ensures closed { counter.old.value ≡ None → result ≡ pos 1 }
    ensures same { counter.new.value ≡ counter.old.value }
{
    let Some(open) = counter.take(alloc) else {
        return CLOSED;
    };
    *sum = open.sum;
    counter.put(alloc, open);
    OK
}

/// Closes a handle, and frees what it holds.
#[unsafe(no_mangle)]
pub extern "C" fn xc_counter_free(alloc: Global, counter: &mut CounterHandle) -> i32
    ensures closed { counter.new.value ≡ None }
    ensures code { result ≡ pos 0 → counter.old.value ≢ None }
{
    match counter.take(alloc) {
        Some(_open) => OK,
        None => CLOSED,
    }
}
