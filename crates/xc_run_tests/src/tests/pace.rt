use std::test::Fail;
use std::thread::join;
use xc_runner::{HoldPace, Pace};

fn take_turns(pace: &HoldPace, job: u32) {
    for turn in 1..41 {
        pace.between(job, turn);
    }
}

#[test]
fn two_jobs_keep_in_step(rt: HostRuntime) -> Result<(), Fail> {
    let pace = HoldPace::new(40, 1_000_000_000);
    join(&rt, || take_turns(&pace, 1), || take_turns(&pace, 2));
    assert!(rt; pace.met());
    Ok(())
}

#[test]
fn a_job_alone_is_held_for_so_many_looks(rt: HostRuntime) -> Result<(), Fail> {
    let pace = HoldPace::new(40, 100);
    take_turns(&pace, 1);
    take_turns(&pace, 2);
    assert!(rt; !pace.met());
    Ok(())
}
