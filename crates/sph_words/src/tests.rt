//! Each line of the table of jobs, its near misses, and the order of the faults, in ample memory: want of memory
//! would do for the clause of `read_words`, so these tests alone show that it isn't told in place of an answer.
use crate::{Job, WordsFault, WordsRefusal, read_words};
use std::alloc::{AllocError, Global};
use std::test::Fail;

const JOBS: [(&str, Job); 13] = [
    ("run", Job::Run { workers: 1 }),
    ("run --workers 4", Job::Run { workers: 4 }),
    ("run --workers=4", Job::Run { workers: 4 }),
    ("run --workers 64", Job::Run { workers: 64 }),
    ("plain", Job::Plain),
    ("check", Job::Check),
    ("tree", Job::Tree),
    ("generate 8 7", Job::Generate { side: 8, seed: 7 }),
    ("generate 1 0", Job::Generate { side: 1, seed: 0 }),
    (
        "generate 32 18446744073709551615",
        Job::Generate {
            side: 32,
            seed: 18_446_744_073_709_551_615,
        },
    ),
    (
        "sample 16 6",
        Job::Sample {
            side: 16,
            seed: 6,
            workers: 1,
        },
    ),
    (
        "sample 16 6 --workers=4",
        Job::Sample {
            side: 16,
            seed: 6,
            workers: 4,
        },
    ),
    (
        "sample 32 0 --workers 1",
        Job::Sample {
            side: 32,
            seed: 0,
            workers: 1,
        },
    ),
];

/// Words out of order, and words whose texts fit no line.
const USAGE: [&str; 35] = [
    "",
    "runs",
    "RUN",
    "help",
    "--help",
    "--version",
    "--",
    "run --help",
    "run --",
    "run ",
    "run 4",
    "--workers 4 run",
    "--workers=2",
    "run --workers",
    "run --workers=",
    "run --workers ",
    "run --worker 4",
    "run -w 4",
    "run --workers x",
    "run --workers -4",
    "run --workers +4",
    "run --workers 04",
    "run --workers --workers",
    "run --workers 4 --workers 4",
    "run --workers=4 5",
    "run --workers 18446744073709551616",
    "plain --workers 4",
    "check --workers 1",
    "tree 1",
    "generate 8",
    "generate 08 7",
    "generate 8 00",
    "generate 8 18446744073709551616",
    "generate 8 7 6",
    "generate 8 7 --workers 4",
];

const FAULTS: [(&str, WordsFault); 9] = [
    ("run --workers 65", WordsFault::Workers(65)),
    ("run --workers 0", WordsFault::Workers(0)),
    (
        "run --workers=18446744073709551615",
        WordsFault::Workers(18_446_744_073_709_551_615),
    ),
    ("generate 33 1", WordsFault::Side(33)),
    ("generate 0 1", WordsFault::Side(0)),
    ("sample 33 1", WordsFault::Side(33)),
    ("sample 33 1 --workers 65", WordsFault::Workers(65)),
    ("generate 33 x", WordsFault::Usage),
    ("sample 33 1 2 --workers 65", WordsFault::Usage),
];

/// What the words answer that stand in the line with a blank between any two.
fn answer(alloc: Global, line: &str) -> Result<Result<Job, WordsRefusal>, AllocError> {
    let mut words = Vec::new(alloc);
    words.push(String::from_str(alloc, "swiftq")?)?;
    for word in line.split(' ') {
        words.push(String::from_str(alloc, word)?)?;
    }
    Ok(read_words(alloc, &words))
}

#[test]
fn each_line_of_the_table_is_a_job(rt: HostRuntime) -> Result<(), Fail> {
    for (line, job) in JOBS {
        assert!(rt; answer(rt.alloc(), line)? == Ok(job));
    }
    Ok(())
}

#[test]
fn other_words_are_no_job(rt: HostRuntime) -> Result<(), Fail> {
    let usage = Err(WordsRefusal::Fault(WordsFault::Usage));
    for line in USAGE {
        assert!(rt; answer(rt.alloc(), line)? == usage);
    }
    let none: Vec<String> = Vec::new(rt.alloc());
    assert!(rt; read_words(rt.alloc(), &none) == usage);
    Ok(())
}

#[test]
fn first_fault_is_told(rt: HostRuntime) -> Result<(), Fail> {
    for (line, fault) in FAULTS {
        assert!(rt; answer(rt.alloc(), line)? == Err(WordsRefusal::Fault(fault)));
    }
    Ok(())
}
