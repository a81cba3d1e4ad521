//! Decks of which all but a few numbers stand in one place: those that are read, the first fault of each kind of
//! refused one, in ample memory, and worked bounds.

use crate::DeckFault::*;
use crate::{Deck, DeckRefusal, Key, LONGEST_TEXT, Place, bound_of, read_deck};
use sph_num::{Params, Particle};
use std::alloc::{AllocError, Global};
use std::test::Fail;

/// The top of every deck here, but for what is changed of it.
const TOP: Params = Params {
    ticks: 0,
    every: 1,
    bin_min: 0,
    bin_max: 0,
    sound: 65_536,
    shift: 20,
    accuracy: 0,
    leaf: 16,
    pairs: 4096,
    slack: 0,
};

/// The rest of a particle at rest in the corner of the box.
const AT_REST: &str = "h = 131072\nx = 0\ny = 0\nz = 0\npy = 0\npz = 0\n";

const AT_ODDS: &str = "[[particle]]\nmass = 1\nh = 131072\n[[particle]]\nweight = 1\n";

const BOTH_LACK: &str =
    "[[particle]]\nmass = 1\nh = 131072\nx = 0\ny = 0\npx = 0\npy = 0\n[[particle]]\nh = 131072\n";

/// A second particle, of the greatest mass and the least length.
const FAR: &str =
    "[[particle]]\nmass = 65536\nh = 1024\nx = 524288\ny = 0\nz = 0\npx = 0\npy = 0\npz = 0\n";

/// A particle whose numbers all differ, in a table of its own and inline.
const VARIED: &str =
    "[[particle]]\nmass = 3\nh = 2048\nx = 1\ny = 2\nz = 1048575\npx = -5\npy = 6\npz = 7\n";

const INLINE: &str =
    "particle = [{ pz = 7, py = 6, px = -5, z = 1048575, y = 2, x = 1, h = 2048, mass = 3 }]\n";

/// A heavy particle at rest.
const HEAVY: Particle = Particle {
    mass: 1024,
    h: 1024,
    x0: [0; 3],
    t0: 0,
    p: [0; 3],
    q: [0; 3],
    f: [0; 3],
    rho: 0,
    g: 0,
    bin: 0,
};

/// The lines of the top, and then this text.
fn top(alloc: Global, params: &Params, rest: &str) -> Result<String, AllocError> {
    let mut text = String::new(alloc);
    for (key, number) in [
        (Key::Ticks, params.ticks),
        (Key::Every, params.every),
        (Key::BinMin, params.bin_min),
        (Key::BinMax, params.bin_max),
        (Key::Sound, params.sound),
        (Key::Shift, params.shift),
        (Key::Accuracy, params.accuracy),
        (Key::Leaf, params.leaf),
        (Key::Pairs, params.pairs),
        (Key::Slack, params.slack),
    ] {
        let name = key.name();
        writeln!(text, "{name} = {number}")?;
    }
    text.push_str(rest)?;
    Ok(text)
}

/// A deck of one particle at rest, with this mass and px.
fn one(alloc: Global, params: &Params, mass: &str, px: &str) -> Result<String, AllocError> {
    let row = format!(in alloc; "[[particle]]\nmass = {mass}\npx = {px}\n{AT_REST}")?;
    top(alloc, params, row.as_str())
}

/// A deck of the greatest differences of mass and of length, at this speed of sound.
fn far_apart(alloc: Global, sound: u32) -> Result<String, AllocError> {
    let params = Params {
        every: 8,
        bin_max: 3,
        sound,
        ..TOP
    };
    let mut text = one(alloc, &params, "1", "0")?;
    text.push_str(FAR)?;
    Ok(text)
}

fn text(alloc: Global, text: &str) -> Result<String, AllocError> {
    String::from_str(alloc, text)
}

fn accepted(alloc: Global, text: &String) -> Result<Deck, Fail> {
    Ok(read_deck(alloc, text.as_bytes()).ok().ok_or("refused")?)
}

const fn at(key: u32, row: u32) -> Place {
    Place { key, row }
}

/// Of each kind but the too long and the too many.
#[test]
fn answers_the_first_fault(rt: HostRuntime) -> Result<(), Fail> {
    let alloc = rt.alloc();
    let least = "-9223372036854775808";
    let bound = 79_229_593_140_405_403_728_966_844_416;
    let off_unit = Params {
        every: 6,
        bin_max: 2,
        ..TOP
    };
    let off_every = Params {
        ticks: 6,
        every: 4,
        bin_max: 2,
        ..TOP
    };
    let turned = Params { bin_min: 1, ..TOP };
    let cases = [
        (text(alloc, "")?, Missing(at(1, 0))),
        (text(alloc, "a = ")?, NotToml),
        (text(alloc, "a = 1")?, Unknown(at(0, 0))),
        (top(alloc, &TOP, AT_ODDS)?, Unknown(at(0, 2))),
        (top(alloc, &TOP, BOTH_LACK)?, Missing(at(16, 1))),
        (top(alloc, &TOP, "particle = []")?, NoParticles),
        (top(alloc, &TOP, "particle = [1]")?, WrongKind(at(11, 1))),
        (top(alloc, &TOP, "particle = 1")?, WrongKind(at(11, 0))),
        (one(alloc, &TOP, "0", "0")?, OutOfRange(at(12, 1), 0)),
        (one(alloc, &TOP, "1.0", "0")?, WrongKind(at(12, 1))),
        (
            one(alloc, &TOP, "1", least)?,
            OutOfRange(at(17, 1), i64::MIN),
        ),
        (
            one(alloc, &off_unit, "1", "0")?,
            BadEvery { every: 6, unit: 4 },
        ),
        (
            one(alloc, &off_every, "1", "0")?,
            BadTicks { ticks: 6, every: 4 },
        ),
        (one(alloc, &turned, "1", "0")?, BadBins { min: 1, max: 0 }),
        (far_apart(alloc, 42_894)?, Sums(bound)),
    ];
    for (text, fault) in cases {
        let refusal = read_deck(alloc, text.as_bytes()).err();
        assert!(rt; refusal == Some(DeckRefusal::Fault(fault)), "at {text}");
    }
    Ok(())
}

/// A text that is no TOML, in ample memory: want of memory would do for the clauses of `read_deck`.
#[test]
fn tells_what_is_no_toml(rt: HostRuntime) {
    for bytes in [
        b"a = ".as_slice(),
        b"\xff".as_slice(),
        b"a = 1\na = 2\n".as_slice(),
    ] {
        let refusal = read_deck(rt.alloc(), bytes).err();
        assert!(rt; refusal == Some(DeckRefusal::Fault(NotToml)));
    }
}

#[test]
fn refuses_a_long_text_unread(rt: HostRuntime) -> Result<(), Fail> {
    let text = vec![in rt.alloc(); b'='; LONGEST_TEXT + 1]?;
    let refusal = read_deck(rt.alloc(), &text).err();
    assert!(rt; refusal == Some(DeckRefusal::Fault(TooLong)));
    Ok(())
}

#[test]
fn reads_the_numbers(rt: HostRuntime) -> Result<(), Fail> {
    let deck = accepted(rt.alloc(), &top(rt.alloc(), &TOP, VARIED)?)?;
    assert!(rt; deck.params == TOP);
    assert_eq!(rt; deck.particles.len(), 1);
    let particle = deck.particles.get(0).ok_or("no particle")?;
    assert_eq!(rt; particle.mass, 3);
    assert_eq!(rt; particle.h, 2_048);
    assert!(rt; particle.x0 == [1, 2, 1_048_575]);
    assert!(rt; particle.p == [-5, 6, 7]);
    assert!(rt; particle.q == [-5, 6, 7]);
    let same = accepted(rt.alloc(), &top(rt.alloc(), &TOP, INLINE)?)?;
    assert!(rt; deck.params == same.params);
    assert!(rt; deck.particles.as_slice() == same.particles.as_slice());
    Ok(())
}

#[test]
fn reads_up_to_the_bound(rt: HostRuntime) -> Result<(), Fail> {
    let deck = accepted(rt.alloc(), &far_apart(rt.alloc(), 42_893)?)?;
    assert_eq!(rt; deck.particles.len(), 2);
    Ok(())
}

#[test]
fn keys_count_from_one(rt: HostRuntime) {
    assert!(rt; Key::numbered(0).is_none());
    assert!(rt; Key::numbered(12) == Some(Key::Mass));
    assert!(rt; Key::numbered(19) == Some(Key::Pz));
    assert!(rt; Key::numbered(20).is_none());
}

#[test]
fn bounds_a_pair(rt: HostRuntime) {
    assert_eq!(rt; bound_of(&TOP, &[HEAVY, HEAVY]), 13_190_071_320_576);
    let params = Params {
        ticks: 8,
        bin_max: 2,
        sound: 3,
        ..TOP
    };
    let first = Particle {
        p: [0, -7, 3],
        ..HEAVY
    };
    let second = Particle {
        mass: 512,
        h: 2048,
        p: [0, 0, 5],
        ..HEAVY
    };
    assert_eq!(rt; bound_of(&params, &[first, second]), 328_111_226_887);
}
