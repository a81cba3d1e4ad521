//! Whole runs of the top call over sources and sinks in memory.
ghost use Rattle.std.specs.Prelude.{◌≤◌};

use qs_gate::{Gate, NoGate};
use sph_deck::{DeckFault, DeckRefusal, bound_of, read_deck};
use sph_edge::{MemorySink, MemorySource, Source};
use sph_top::{Status, swiftq};
use std::alloc::{AllocError, Global};
use std::test::Fail;
use std::thread::Threads;

/// The numbers of a deck's top in which the worked decks differ.
#[derive(Clone, Copy)]
pub(crate) struct Top {
    pub ticks: u32,
    pub every: u32,
    pub bin_min: u32,
    pub bin_max: u32,
    pub shift: u32,
    pub accuracy: u32,
    pub leaf: u32,
    pub pairs: u32,
}

/// The top of a deck of one snapshot.
pub(crate) const ONE_SNAPSHOT: Top = Top {
    ticks: 0,
    every: 1,
    bin_min: 0,
    bin_max: 0,
    shift: 20,
    accuracy: 0,
    leaf: 16,
    pairs: 4_096,
};

/// The stream of one particle of mass 1 and h 131072 at the origin, at rest.
const ONE_PARTICLE: [u8; 108] = [
    0x53, 0x50, 0x48, 0x53, 0x4e, 0x41, 0x50, 0x31, 0, 0, 0, 0, 1, 0, 0, 0, //
    1, 0, 0, 0, 1, 0, 0, 0, 0, 0, 2, 0, 0, 0, 0, 0, 0, 0, 0, 0, 0, 0, 0, 0, //
    0, 0, 0, 0, 0, 0, 0, 0, 0, 0, 0, 0, 0, 0, 0, 0, //
    0, 0, 0, 0, 0, 0, 0, 0, 0, 0, 0, 0, 0, 0, 0, 0, //
    0, 0, 0, 0, 0, 0, 0, 0, 0, 0, 0, 0, 0, 0, 0, 0, //
    0x14, 0, 0, 0, 0, 0, 0, 0, 0, 0, 0, 0, //
    0x53, 0x50, 0x48, 0x53, 0x4e, 0x45, 0x4e, 0x44,
];

/// A particle on the x axis that moves along it.
#[derive(Clone, Copy)]
pub(crate) struct Body {
    pub mass: u32,
    pub h: u32,
    pub x: u32,
    pub px: i64,
}

/// The light particle of the one-particle stream.
pub(crate) const LIGHT: Body = Body {
    mass: 1,
    h: 131_072,
    x: 0,
    px: 0,
};

/// The lines of a particle.
fn push_body(alloc: Global, text: &mut String, body: Body) -> Result<(), AllocError> {
    let Body { mass, h, x, px } = body;
    let lines = format!(in alloc;
        "[[particle]]\nmass = {mass}\nh = {h}\nx = {x}\ny = 0\nz = 0\npx = {px}\npy = 0\npz = 0\n"
    )?;
    text.push_str(lines.as_str())
}

/// The text of a deck.
pub(crate) fn deck(alloc: Global, top: Top, bodies: &[Body]) -> Result<String, AllocError> {
    let Top {
        ticks,
        every,
        bin_min,
        bin_max,
        shift,
        accuracy,
        leaf,
        pairs,
    } = top;
    let bins = format!(in alloc;
        "ticks = {ticks}\nevery = {every}\nbin_min = {bin_min}\nbin_max = {bin_max}\n"
    )?;
    let mut text = format!(in alloc;
        "{bins}sound = 65536\nshift = {shift}\naccuracy = {accuracy}\nleaf = {leaf}\npairs = {pairs}\nslack = 0\n"
    )?;
    for body in bodies {
        push_body(alloc, &mut text, *body)?;
    }
    Ok(text)
}

/// A source over a text that gives at most so many bytes a call and fails at one call, or at none for 0.
fn source(alloc: Global, text: &str, most: usize, fails: u64) -> Result<MemorySource, AllocError>
    requires { 1 ≤ most }
{
    let bytes = Vec::from_slice(alloc, text.as_bytes())?;
    Ok(MemorySource::new(bytes, most, vec![in alloc; fails]?))
}

/// A sink with room for so many bytes, which takes at most so many a call and fails at one call.
fn sink(alloc: Global, room: usize, most: usize, fails: u64) -> Result<MemorySink, AllocError>
    requires { 1 ≤ most }
{
    MemorySink::new(alloc, room, most, vec![in alloc; fails]?)
}

/// A run's answer and its two outputs.
#[derive(Drop)]
pub(crate) struct Outcome {
    pub status: Status,
    pub out: MemorySink,
    pub err: MemorySink,
}

/// The program's name, and the words of a job with a blank between any two.
pub(crate) fn words_for(alloc: Global, job: &str) -> Result<Vec<String>, AllocError> {
    let mut words = Vec::new(alloc);
    words.push(String::from_str(alloc, "swiftq")?)?;
    for word in job.split(' ') {
        words.push(String::from_str(alloc, word)?)?;
    }
    Ok(words)
}

fn run<R: Threads + Sync, G: Gate>(
    rt: &R,
    alloc: Global,
    job: &str,
    source: &mut MemorySource,
    mut out: MemorySink,
    mut err: MemorySink,
    gate: &G,
) -> Result<Outcome, AllocError> {
    let words = words_for(alloc, job)?;
    let status = swiftq(
        rt,
        alloc,
        words.as_slice(),
        source,
        &mut out,
        &mut err,
        gate,
    );
    Ok(Outcome { status, out, err })
}

/// A job on a text with ample room and no failure.
pub(crate) fn do_job<R: Threads + Sync>(
    rt: &R,
    alloc: Global,
    job: &str,
    text: &str,
) -> Result<Outcome, AllocError> {
    do_job_past(rt, alloc, job, text, &NoGate)
}

/// The same, past a gate.
pub(crate) fn do_job_past<R: Threads + Sync, G: Gate>(
    rt: &R,
    alloc: Global,
    job: &str,
    text: &str,
    gate: &G,
) -> Result<Outcome, AllocError> {
    let mut source = source(alloc, text, usize::MAX, 0)?;
    run(
        rt,
        alloc,
        job,
        &mut source,
        sink(alloc, 1_048_576, usize::MAX, 0)?,
        sink(alloc, 256, usize::MAX, 0)?,
        gate,
    )
}

#[test]
fn one_particle_stream(rt: HostRuntime) -> Result<(), Fail> {
    let text = deck(rt.alloc(), ONE_SNAPSHOT, &[LIGHT])?;
    let run = do_job(&rt, rt.alloc(), "run", text.as_str())?;
    assert_eq!(rt; run.status, Status::Done);
    assert!(rt; run.out.held() == ONE_PARTICLE.as_slice());
    assert!(rt; run.err.held().is_empty());
    Ok(())
}

#[test]
fn short_sink_fails(rt: HostRuntime) -> Result<(), Fail> {
    let alloc = rt.alloc();
    let text = deck(alloc, ONE_SNAPSHOT, &[LIGHT])?;
    let mut source = source(alloc, text.as_str(), usize::MAX, 0)?;
    let run = run(
        &rt,
        alloc,
        "run",
        &mut source,
        sink(alloc, 108, 40, 3)?,
        sink(alloc, 256, 256, 0)?,
        &NoGate,
    )?;
    assert_eq!(rt; run.status, Status::WriteFault);
    assert!(rt; run.out.held() == &ONE_PARTICLE[..80]);
    assert!(rt; run.err.held() == b"swiftq: write fault\n".as_slice());
    Ok(())
}

#[test]
fn failing_source(rt: HostRuntime) -> Result<(), Fail> {
    let alloc = rt.alloc();
    let text = deck(alloc, ONE_SNAPSHOT, &[LIGHT])?;
    let mut source = source(alloc, text.as_str(), 16, 2)?;
    let run = run(
        &rt,
        alloc,
        "run",
        &mut source,
        sink(alloc, 108, 108, 0)?,
        sink(alloc, 256, 256, 0)?,
        &NoGate,
    )?;
    assert_eq!(rt; run.status, Status::ReadFault);
    assert!(rt; run.out.held().is_empty());
    assert!(rt; run.err.held() == b"swiftq: read fault\n".as_slice());
    Ok(())
}

#[test]
fn failing_error_sink(rt: HostRuntime) -> Result<(), Fail> {
    let alloc = rt.alloc();
    let mut source = source(alloc, "", 16, 0)?;
    let run = run(
        &rt,
        alloc,
        "fly",
        &mut source,
        sink(alloc, 108, 108, 0)?,
        sink(alloc, 256, 256, 1)?,
        &NoGate,
    )?;
    assert_eq!(rt; run.status, Status::WriteFault);
    assert!(rt; run.out.held().is_empty());
    assert!(rt; run.err.held().is_empty());
    Ok(())
}

/// A source over a deck's text that is filled with line ends to so many bytes.
fn filled(alloc: Global, text: &str, size: usize) -> Result<MemorySource, AllocError> {
    let mut bytes = Vec::from_slice(alloc, text.as_bytes())?;
    let rest = vec![in alloc; 10; size.saturating_sub(text.len())]?;
    bytes.extend_from_slice(&rest)?;
    Ok(MemorySource::new(bytes, usize::MAX, Vec::new(alloc)))
}

#[test]
fn refusals_tell_their_line(rt: HostRuntime) -> Result<(), Fail> {
    let alloc = rt.alloc();
    let light = deck(alloc, ONE_SNAPSHOT, &[Body { mass: 0, ..LIGHT }])?;
    let cases = [
        ("", "missing ticks at the top"),
        ("a = ", "not TOML"),
        ("a = 1", "unknown key at the top"),
        (light.as_str(), "mass at particle 1 out of range: 0"),
    ];
    for (text, line) in cases {
        let run = do_job(&rt, alloc, "run", text)?;
        assert!(rt; matches!(run.status, Status::DeckRefused(_)), "{line}");
        let want = format!(in alloc; "swiftq: deck refused: {line}\n")?;
        assert!(rt; run.err.held() == want.as_bytes(), "{line}");
        assert!(rt; run.out.held().is_empty(), "{line}");
    }
    Ok(())
}

#[test]
fn faults_of_the_words_tell_their_line(rt: HostRuntime) -> Result<(), Fail> {
    let alloc = rt.alloc();
    let text = deck(alloc, ONE_SNAPSHOT, &[LIGHT])?;
    let usage =
        "usage: run [--workers N] | plain | check | tree | generate SIDE SEED | sample SIDE SEED [--workers N]";
    let cases = [
        ("fly", usage),
        ("--workers 4 run", usage),
        ("run --workers x", usage),
        ("run --workers 65", "workers must be 1 to 64, not 65"),
        ("generate 33 1", "side must be 1 to 32, not 33"),
    ];
    for (job, line) in cases {
        let run = do_job(&rt, alloc, job, text.as_str())?;
        assert!(rt; matches!(run.status, Status::Usage(_)), "{job}");
        let want = format!(in alloc; "swiftq: {line}\n")?;
        assert!(rt; run.err.held() == want.as_bytes(), "{job}");
        assert!(rt; run.out.held().is_empty(), "{job}");
    }
    Ok(())
}

/// The deck of one site: mass 1918, h 131072, and momenta drawn from seed 0. It gives itself no force.
#[test]
fn deck_of_one_site(rt: HostRuntime) -> Result<(), Fail> {
    let alloc = rt.alloc();
    let written = do_job(&rt, alloc, "generate 1 0", "")?;
    assert_eq!(rt; written.status, Status::Done);
    let text = String::from_utf8(Vec::from_slice(alloc, written.out.held())?)?;
    assert!(rt;
        text.as_str().starts_with("ticks = 4\nevery = 4\nbin_min = 0\nbin_max = 0\nsound = 256\n")
    );
    assert!(rt;
        text.as_str()
            .contains("slack = 1024\n[[particle]]\nmass = 1918\nh = 131072\n")
    );
    let summary = "tick 0 rho 39073 qx -4895526 qy 1343286 qz -4156560\n\
        tick 4 rho 39073 qx -4895526 qy 1343286 qz -4156560\n";
    for job in ["sample 1 0", "sample 1 0 --workers 4"] {
        let run = do_job(&rt, alloc, job, "")?;
        assert_eq!(rt; run.status, Status::Done, "{job}");
        assert!(rt; run.out.held() == summary.as_bytes(), "{job}");
    }
    Ok(())
}

#[test]
fn workers_change_nothing(rt: HostRuntime) -> Result<(), Fail> {
    let alloc = rt.alloc();
    let text = deck(alloc, ONE_SNAPSHOT, &[LIGHT])?;
    for job in ["run", "run --workers 4", "run --workers=2", "plain"] {
        let run = do_job(&rt, alloc, job, text.as_str())?;
        assert_eq!(rt; run.status, Status::Done, "{job}");
        assert!(rt; run.out.held() == ONE_PARTICLE.as_slice(), "{job}");
    }
    Ok(())
}

#[test]
fn longest_text(rt: HostRuntime) -> Result<(), Fail> {
    let alloc = rt.alloc();
    let text = deck(alloc, ONE_SNAPSHOT, &[LIGHT])?;
    let mut whole = filled(alloc, text.as_str(), 16_777_216)?;
    let done = run(
        &rt,
        alloc,
        "run",
        &mut whole,
        sink(alloc, 108, 108, 0)?,
        sink(alloc, 256, 256, 0)?,
        &NoGate,
    )?;
    assert_eq!(rt; done.status, Status::Done);
    assert!(rt; done.out.held() == ONE_PARTICLE.as_slice());

    // Of a longer text 16,777,217 bytes are taken, and not the one behind them.
    for (size, left) in [(16_777_217, 0), (16_777_218, 1)] {
        let mut longer = filled(alloc, text.as_str(), size)?;
        let refused = run(
            &rt,
            alloc,
            "run",
            &mut longer,
            sink(alloc, 108, 108, 0)?,
            sink(alloc, 256, 256, 0)?,
            &NoGate,
        )?;
        assert!(rt;
            refused.status == Status::DeckRefused(DeckFault::TooLong),
            "of {size}"
        );
        assert!(rt;
            refused.err.held() == b"swiftq: deck refused: longer than 16777216 bytes\n".as_slice(),
            "of {size}"
        );
        assert!(rt; refused.out.held().is_empty(), "of {size}");
        assert_eq!(rt; longer.take(&mut [0; 4]), Ok(left), "of {size}");
    }
    Ok(())
}

#[test]
fn greatest_deck(rt: HostRuntime) -> Result<(), Fail> {
    let alloc = rt.alloc();
    let mut text = deck(alloc, ONE_SNAPSHOT, &[])?;
    for i in 0..32_768u32 {
        let x = i.saturating_mul(32);
        push_body(alloc, &mut text, Body { x, ..LIGHT })?;
    }
    let read = read_deck(alloc, text.as_bytes()).ok().ok_or("refused")?;
    assert_eq!(rt;
        bound_of(&read.params, read.particles.as_slice()),
        1_675_037_245_440
    );

    push_body(alloc, &mut text, LIGHT)?;
    let refusal = read_deck(alloc, text.as_bytes()).err();
    assert!(rt; refusal == Some(DeckRefusal::Fault(DeckFault::TooMany(32_769))));
    Ok(())
}

/// No contract can say that ample memory is not refused.
#[test]
fn memory_is_not_refused(rt: HostRuntime) -> Result<(), Fail> {
    let alloc = rt.alloc();
    let hundred = deck(alloc, ONE_SNAPSHOT, &[LIGHT; 100])?;
    for (name, text) in [
        ("a hundred particles", hundred.as_str()),
        ("an empty text", ""),
        ("no TOML", "a = "),
        ("no deck", "a = 1"),
    ] {
        let run = do_job(&rt, alloc, "run", text)?;
        assert!(rt; run.status != Status::NoMemory, "{name}");
    }
    Ok(())
}
