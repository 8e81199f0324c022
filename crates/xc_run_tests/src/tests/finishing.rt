use std::alloc::Global;
use std::test::Fail;
use xc_data::Chunk;
use xc_memhost::MemHost;
use xc_model::{Phase, Rules};
use xc_station::Station;
use xc_text::{ParseErr, parse};

// Its transaction overwrites twice and aborts; the first restore fails.
const UNDOES: &str = "file a \"hello\"
fault restore 1
job main
tx
x_open a -> f
x_write_ovr f \"HE\"
x_write_ovr f \"LL\"
abort
commit
end
";

// Its transaction has a late call.
const COMMITS: &str = "file a \"hello\"
job main
tx
x_unlink a
x_open a -> f
commit
tx
x_open a -> g
commit
end
";

const RULES: Rules = Rules {
    attempts: 100,
    patience: 10_000,
    undo_tries: 1,
};

// A station with this script, after the turns in which the first transaction of job 1 runs.
fn first_ends(alloc: Global, script: &str) -> Result<Option<Station<MemHost>>, ParseErr> {
    let script = parse(alloc, &Chunk::new(alloc, script.as_bytes())?)?;
    let Ok(mut station) = Station::start(alloc, MemHost::new(alloc), script, RULES) else {
        return Ok(None);
    };
    for _ in 0..9 {
        if !matches!(
            station.phase(1),
            Some(Phase::Committing | Phase::Undoing(_))
        ) {
            station.try_turn(1);
        }
    }
    Ok(Some(station))
}

// The place of its entry, if the first transaction is in its rollback; then it is no more active.
fn undone(alloc: Global, script: &str) -> Result<Option<u32>, ParseErr> {
    let Some(mut station) = first_ends(alloc, script)? else {
        return Ok(None);
    };
    if !matches!(station.phase(1), Some(Phase::Undoing(_))) {
        return Ok(None);
    }
    let place = station.finish_undo(1);
    Ok(if station.phase(1).is_none() {
        Some(place)
    } else {
        None
    })
}

// The same of one that commits.
fn committed(alloc: Global, script: &str) -> Result<Option<u32>, ParseErr> {
    let Some(mut station) = first_ends(alloc, script)? else {
        return Ok(None);
    };
    if !matches!(station.phase(1), Some(Phase::Committing)) {
        return Ok(None);
    }
    let place = station.finish_commit(1);
    Ok(if station.phase(1).is_none() {
        Some(place)
    } else {
        None
    })
}

#[test]
fn a_rollback_is_finished(rt: HostRuntime) -> Result<(), Fail> {
    assert!(rt; undone(rt.alloc(), UNDOES)? == Some(0));
    assert!(rt; undone(rt.alloc(), COMMITS)?.is_none());
    Ok(())
}

#[test]
fn a_commit_is_finished(rt: HostRuntime) -> Result<(), Fail> {
    assert!(rt; committed(rt.alloc(), COMMITS)? == Some(0));
    assert!(rt; committed(rt.alloc(), UNDOES)?.is_none());
    Ok(())
}
