use std::sync::atomic::{AtomicU64, Ordering};
use std::thread;

/// What a worker does between two turns. Nothing is promised of it.
pub trait Pace {
    /// Called after each turn of a job, while the worker doesn't hold the station. `turn` counts the job's turns, from 1.
    fn between(&self, job: u32, turn: u64);
}

/// Does nothing.
pub struct NoPace;

impl Pace for NoPace {
    fn between(&self, _job: u32, _turn: u64) {}
}

/// Keeps jobs 1 and 2 in step over their first `meets` turns: after each of these turns it holds the job until the other has
/// taken as many, for at most `limit` looks in all.
/// It counts looks, since nothing here reads a clock.
#[derive(Drop)]
pub struct HoldPace {
    meets: u64,
    limit: u64,
    /// The turns of job 1 so far.
    first: AtomicU64,
    /// The turns of job 2 so far.
    second: AtomicU64,
    /// The looks of all holds so far.
    looks: AtomicU64,
    /// The holds that ended because the other job had come as far.
    ended: AtomicU64,
}

impl HoldPace {
    /// Two jobs are to meet `meets` times; each waits for the other for at most `limit` looks.
    pub fn new(meets: u64, limit: u64) -> HoldPace {
        HoldPace {
            meets,
            limit,
            first: AtomicU64::new(0),
            second: AtomicU64::new(0),
            looks: AtomicU64::new(0),
            ended: AtomicU64::new(0),
        }
    }

    /// Whether every hold came, and ended because the other job had come as far.
    pub fn met(&self) -> bool {
        match self.meets.checked_mul(2) {
            Some(all) => self.ended.load(Ordering::SeqCst) == all,
            None => false,
        }
    }

    // Holds a job after its turn until the other has taken as many, or no look is left.
    fn hold(&self, mine: &AtomicU64, other: &AtomicU64, turn: u64) {
        mine.fetch_max(turn, Ordering::SeqCst);
        for _ in 0..self.limit {
            if other.load(Ordering::SeqCst) >= turn {
                self.ended.fetch_add(1, Ordering::SeqCst);
                return;
            }
            if self.looks.fetch_add(1, Ordering::SeqCst) >= self.limit {
                return;
            }
            thread::yield_now();
        }
    }
}

impl Pace for HoldPace {
    fn between(&self, job: u32, turn: u64) {
        if turn > self.meets {
            return;
        }
        match job {
            1 => self.hold(&self.first, &self.second, turn),
            2 => self.hold(&self.second, &self.first, turn),
            _ => {}
        }
    }
}
