use std::hint;
use std::sync::Wait;
use std::thread::{Parker, yield_now};
use std::time::Duration;

// So many steps spin, and so many yield the thread. Those behind them sleep, for so many microseconds.
const SPINS: u32 = 3;

const YIELDS: u32 = 3;

const SLEEPS: [u64; 6] = [50, 100, 200, 400, 800, 1000];

/// A wait in steps, each longer than the one before, up to a sleep of a millisecond. Nothing is promised of it.
#[derive(Drop)]
pub struct Backoff {
    steps: u32,
}

impl Backoff {
    /// At its first step.
    pub fn new() -> Backoff {
        Backoff { steps: 0 }
    }

    /// Waits a step.
    pub fn wait<R: Wait>(&mut self, rt: &R) {
        if self.steps < SPINS {
            spin(8 << self.steps);
        } else if self.steps < SPINS + YIELDS {
            yield_now();
        } else {
            sleep(rt, self.steps - SPINS - YIELDS);
        }
        self.steps = self.steps.saturating_add(1);
    }

    /// Waits a step where there is something to wait for, and is at its first step again where there is nothing.
    pub fn wait_or_begin<R: Wait>(&mut self, rt: &R, waits: bool) {
        if waits {
            self.wait(rt);
        } else {
            self.steps = 0;
        }
    }
}

// Keeps the processor for so many pauses.
fn spin(pauses: u32) {
    for _ in 0..pauses {
        hint::spin_loop();
    }
}

// Sleeps. Nobody knows the place where it parks, so nobody wakes it before its time.
fn sleep<R: Wait>(rt: &R, step: u32) {
    let micros = SLEEPS[step.min(5) as usize];
    Parker::new().park_timeout(rt, Duration::from_micros(micros));
}
