//! Generated decks through the top call.
use crate::tests::{do_job, do_job_past};
use qs_gate::{CountGate, CrowdGate};
use sph_snap::{Snapshot, read_stream};
use sph_top::Status;
use std::alloc::Global;
use std::test::Fail;
use std::thread::Threads;

/// The text of a generated deck.
fn generated<R: Threads + Sync>(rt: &R, alloc: Global, job: &str) -> Result<String, Fail> {
    let run = do_job(rt, alloc, job, "")?;
    Ok(String::from_utf8(Vec::from_slice(alloc, run.out.held())?)?)
}

/// The same deck with another line of its top in place of one.
fn with_line(alloc: Global, text: &str, old: &str, new: &str) -> Result<String, Fail> {
    let (before, after) = text.split_once(old).ok_or("no such line")?;
    Ok(format!(in alloc; "{before}{new}{after}")?)
}

/// The same deck with its work cut up otherwise.
fn cut(alloc: Global, text: &str, leaf: u32, pairs: u32, slack: u32) -> Result<String, Fail> {
    let old = "leaf = 16\npairs = 4096\nslack = 1024\n";
    let new = format!(in alloc; "leaf = {leaf}\npairs = {pairs}\nslack = {slack}\n")?;
    with_line(alloc, text, old, new.as_str())
}

/// The sum of the momenta of a snapshot on each axis.
fn momentum(snapshot: &Snapshot) -> [i128; 3] {
    let mut sum = [0_i128; 3];
    for row in snapshot.rows.as_slice() {
        for (axis, total) in sum.iter_mut().enumerate() {
            *total = total.wrapping_add(row.q[axis]);
        }
    }
    sum
}

#[test]
fn shows_the_tree_of_a_lattice(rt: HostRuntime) -> Result<(), Fail> {
    let alloc = rt.alloc();
    let text = generated(&rt, alloc, "generate 8 7")?;
    let run = do_job(&rt, alloc, "tree", text.as_str())?;
    assert_eq!(rt; run.status, Status::Done);
    let want: &[u8] = b"particles 512 cells 73 leaves 64 deepest 2 largest 8\n\
          density 36 ghost 64 force 36 kick 64 edges 1536 heaviest 8208\n";
    assert!(rt; run.out.held() == want);
    Ok(())
}

/// Runs by one worker and by several.
const RUNS: [&str; 4] = [
    "run",
    "run --workers 2",
    "run --workers 3",
    "run --workers 64",
];

#[test]
fn one_stream_whatever_the_leaves_and_workers(rt: HostRuntime) -> Result<(), Fail> {
    let alloc = rt.alloc();
    let text = generated(&rt, alloc, "generate 16 7")?;
    let plain = do_job(&rt, alloc, "plain", text.as_str())?;
    assert_eq!(rt; plain.status, Status::Done);
    assert_eq!(rt; plain.out.held().len(), 688_168);
    for leaf in [16, 1, 256] {
        let text = cut(alloc, text.as_str(), leaf, 4096, 1024)?;
        for job in RUNS {
            let run = do_job(&rt, alloc, job, text.as_str())?;
            assert_eq!(rt; run.status, Status::Done, "{job}, {leaf}");
            assert!(rt; run.out.held() == plain.out.held(), "{job}, {leaf}");
        }
    }
    Ok(())
}

/// With one time bin and with several, however the work is cut up.
#[test]
fn one_stream_however_the_work_is_cut(rt: HostRuntime) -> Result<(), Fail> {
    let alloc = rt.alloc();
    for job in ["generate 8 6", "generate 8 7"] {
        let text = generated(&rt, alloc, job)?;
        let plain = do_job(&rt, alloc, "plain", text.as_str())?;
        assert_eq!(rt; plain.status, Status::Done);
        for (leaf, pairs, slack) in [
            (1, 1, 0),
            (1, 1_073_741_824, 65_535),
            (16, 64, 65_535),
            (256, 1, 1024),
        ] {
            let text = cut(alloc, text.as_str(), leaf, pairs, slack)?;
            for by in RUNS {
                let run = do_job(&rt, alloc, by, text.as_str())?;
                assert_eq!(rt; run.status, Status::Done, "{by}, {leaf} {pairs} {slack}");
                assert!(rt;
                    run.out.held() == plain.out.held(),
                    "{by}, {leaf} {pairs} {slack}"
                );
            }
        }
    }
    Ok(())
}

/// A run passes the gate as often as there are tasks, and sums over all pairs not at all. The deck of one site has
/// five steps of four tasks each.
#[test]
fn passes_as_often_as_there_are_tasks(rt: HostRuntime) -> Result<(), Fail> {
    let alloc = rt.alloc();
    let text = generated(&rt, alloc, "generate 8 7")?;
    let text = with_line(alloc, text.as_str(), "ticks = 4\n", "ticks = 0\n")?;
    for (job, text, passes) in [
        ("run", text.as_str(), 200),
        ("run --workers 1", text.as_str(), 200),
        ("plain", text.as_str(), 0),
        ("sample 1 0", "", 20),
        // Four tasks a step are too few for a second worker.
        ("sample 1 0 --workers 64", "", 20),
    ] {
        let gate = CountGate::new();
        let run = do_job_past(&rt, alloc, job, text, &gate)?;
        assert_eq!(rt; run.status, Status::Done, "{job}");
        assert_eq!(rt; gate.passes(), passes, "{job}");
        assert_eq!(rt; gate.firsts(), passes, "{job}");
    }
    Ok(())
}

/// Several workers, and the calling thread with what they leave, pass the gate as often as there are tasks.
#[test]
fn several_workers_pass_as_often(rt: HostRuntime) -> Result<(), Fail> {
    let alloc = rt.alloc();
    let text = generated(&rt, alloc, "generate 8 7")?;
    let text = with_line(alloc, text.as_str(), "ticks = 4\n", "ticks = 0\n")?;
    for job in ["run --workers 2", "run --workers 64"] {
        let gate = CountGate::new();
        let run = do_job_past(&rt, alloc, job, text.as_str(), &gate)?;
        assert_eq!(rt; run.status, Status::Done, "{job}");
        assert_eq!(rt; gate.passes(), 200, "{job}");
    }
    Ok(())
}

/// As many workers as are asked for are inside tasks at once.
#[test]
fn workers_meet(rt: HostRuntime) -> Result<(), Fail> {
    let alloc = rt.alloc();
    let text = generated(&rt, alloc, "generate 8 7")?;
    for (job, text, workers) in [
        ("run --workers 2", text.as_str(), 2),
        ("run --workers 3", text.as_str(), 3),
        ("sample 8 7 --workers 2", "", 2),
    ] {
        let gate = CrowdGate::new(workers, 10_000_000);
        let run = do_job_past(&rt, alloc, job, text, &gate)?;
        assert_eq!(rt; run.status, Status::Done, "{job}");
        assert!(rt; gate.met(), "{job}");
    }
    Ok(())
}

#[test]
fn one_bin_keeps_the_momentum(rt: HostRuntime) -> Result<(), Fail> {
    let alloc = rt.alloc();
    let text = generated(&rt, alloc, "generate 16 6")?;
    let run = do_job(&rt, alloc, "run", text.as_str())?;
    assert_eq!(rt; run.status, Status::Done);
    let read = read_stream(alloc, run.out.held()).ok().ok_or("no stream")?;
    assert_eq!(rt; read.len(), 2);
    let first = read.first().ok_or("no snapshot")?;
    let last = read.last().ok_or("no snapshot")?;
    assert_eq!(rt; momentum(first), momentum(last));
    Ok(())
}

#[test]
fn samples_are_the_same(rt: HostRuntime) -> Result<(), Fail> {
    let alloc = rt.alloc();
    let first = do_job(&rt, alloc, "sample 16 6", "")?;
    assert_eq!(rt; first.status, Status::Done);
    let lines = String::from_utf8(Vec::from_slice(alloc, first.out.held())?)?;
    let mut starts = lines.as_str().lines();
    assert!(rt; starts.next().ok_or("no line")?.starts_with("tick 0 rho "));
    assert!(rt; starts.next().ok_or("no line")?.starts_with("tick 4 rho "));
    assert!(rt; starts.next().is_none());
    for job in ["sample 16 6", "sample 16 6 --workers 4"] {
        let again = do_job(&rt, alloc, job, "")?;
        assert!(rt; again.out.held() == first.out.held(), "{job}");
    }
    Ok(())
}
