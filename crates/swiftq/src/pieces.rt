//! That a snapshot, the end mark and a line are each handed over as one piece: no contract can say it.
ghost use Rattle.std.specs.Prelude.{None};

use crate::runs::REST;
use crate::tests::{Body, ONE_SNAPSHOT, Top, deck, words_for};
use qs_gate::NoGate;
use sph_edge::{Failed, MemorySource, Sink};
use sph_top::swiftq;
use std::alloc::{AllocError, Global};
use std::test::Fail;
use std::thread::Threads;

/// A sink that takes each piece whole and notes its length.
#[derive(Drop)]
struct Lengths {
    noted: Vec<usize>,
}

impl Sink for Lengths {
    ghost held = { λ _. None };

    ghost faults = { λ _. 0 };

    fn give(&mut self, bytes: &[u8]) -> Result<usize, Failed> {
        // Without memory the length is missing, and the test fails.
        let _ = self.noted.push(bytes.len());
        Ok(bytes.len())
    }
}

/// The lengths of the pieces that a job hands to its output, and of those that it hands to standard error.
fn pieces<R: Threads + Sync>(
    rt: &R,
    alloc: Global,
    job: &str,
    text: &str,
) -> Result<(Vec<usize>, Vec<usize>), AllocError> {
    let words = words_for(alloc, job)?;
    let bytes = Vec::from_slice(alloc, text.as_bytes())?;
    let mut source = MemorySource::new(bytes, usize::MAX, Vec::new(alloc));
    let mut out = Lengths {
        noted: Vec::new(alloc),
    };
    let mut err = Lengths {
        noted: Vec::new(alloc),
    };
    swiftq(
        rt,
        alloc,
        words.as_slice(),
        &mut source,
        &mut out,
        &mut err,
        &NoGate,
    );
    Ok((out.noted, err.noted))
}

/// A snapshot of two particles takes 184 bytes, the end mark 8; a line of the summary of one site 52, and its deck 224.
#[test]
fn hands_over_whole_pieces(rt: HostRuntime) -> Result<(), Fail> {
    let alloc = rt.alloc();
    let pair = [Body { x: 1_000, ..REST }, Body { x: 1_512, ..REST }];
    let top = Top {
        ticks: 1,
        ..ONE_SNAPSHOT
    };
    let moving = deck(alloc, top, &pair)?;
    let still = deck(alloc, ONE_SNAPSHOT, &pair)?;
    let accepted = "accepted: particles 2 bound 13190071320576\n";
    let refused = "swiftq: deck refused: missing ticks at the top\n";
    for (job, text, to_out, to_err) in [
        (
            "run",
            moving.as_str(),
            [184, 184, 8].as_slice(),
            [].as_slice(),
        ),
        ("plain", moving.as_str(), &[184, 184, 8], &[]),
        ("check", still.as_str(), &[accepted.len()], &[]),
        ("sample 1 0", "", &[52, 52], &[]),
        ("generate 1 0", "", &[224], &[]),
        ("run", "", &[], &[refused.len()]),
        (
            "generate 33 1",
            "",
            &[],
            &["swiftq: side must be 1 to 32, not 33\n".len()],
        ),
    ] {
        let (out, err) = pieces(&rt, alloc, job, text)?;
        assert!(rt; out.as_slice() == to_out, "{job} to its output");
        assert!(rt; err.as_slice() == to_err, "{job} to standard error");
    }
    Ok(())
}
