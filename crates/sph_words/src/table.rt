//! The table of jobs.
ghost use Rattle.std.specs.Prelude.{◌≡◌, find};
ghost use Rattle.std.specs.Str.{bytes_eq};
ghost use Rattle.sph_words.specs.Jobs.{job_at, job_with, judged_or_usage, word_of};
ghost use Rattle.sph_words.specs.inner.Asked.{side_of, texts_from, workers_of};

use crate::ask::Matched;
use crate::fault::WordsFault;
use crate::job::Job;
use crate::number::{Given, read_given};

/// The word that names a job.
#[derive(Clone, Copy, Debug, PartialEq, Eq)]
pub enum JobName {
    Run,
    Plain,
    Check,
    Tree,
    Generate,
    Sample,
}

const NAMES: [JobName; 6] = [
    JobName::Run,
    JobName::Plain,
    JobName::Check,
    JobName::Tree,
    JobName::Generate,
    JobName::Sample,
];

impl JobName {
    fn word(self) -> &'static str
        ensures { result.now ≡ word_of self }
    {
        match self {
            JobName::Run => "run",
            JobName::Plain => "plain",
            JobName::Check => "check",
            JobName::Tree => "tree",
            JobName::Generate => "generate",
            JobName::Sample => "sample",
        }
    }
}

/// The name that the word is.
fn name_of(word: &str) -> Option<JobName>
    ensures { result ≡ find (λ name. bytes_eq (word_of name) word.now) NAMES }
{
    NAMES.iter().copied().find(|name| name.word() == word)
}

/// The job of these texts, or their first fault.
pub fn job_of(texts: &Matched<'_>) -> Result<Job, WordsFault>
    ensures { result ≡ judged_or_usage (job_with (texts_from texts.now)) }
{
    let Some(name) = name_of(texts.job) else {
        return Err(WordsFault::Usage);
    };
    job_at(
        name,
        read_given(texts.first),
        read_given(texts.second),
        read_given(texts.workers),
    )
}

/// The job in the table's line, or its first fault.
fn job_at(name: JobName, first: Given, second: Given, workers: Given) -> Result<Job, WordsFault>
    ensures { result ≡ judged_or_usage (job_at name first second workers) }
{
    match (name, first, second, workers) {
        (JobName::Run, Given::Absent, Given::Absent, workers) => {
            Ok(Job::Run {
                workers: workers_of(workers)?,
            })
        }
        (JobName::Plain, Given::Absent, Given::Absent, Given::Absent) => Ok(Job::Plain),
        (JobName::Check, Given::Absent, Given::Absent, Given::Absent) => Ok(Job::Check),
        (JobName::Tree, Given::Absent, Given::Absent, Given::Absent) => Ok(Job::Tree),
        (JobName::Generate, Given::Number(side), Given::Number(seed), Given::Absent) => {
            Ok(Job::Generate {
                side: side_of(side)?,
                seed,
            })
        }
        (JobName::Sample, Given::Number(side), Given::Number(seed), workers) => {
            let workers = workers_of(workers)?;
            let side = side_of(side)?;
            Ok(Job::Sample {
                side,
                seed,
                workers,
            })
        }
        _ => Err(WordsFault::Usage),
    }
}

/// The number of workers, 1 where none is given.
fn workers_of(given: Given) -> Result<u32, WordsFault>
    ensures { result ≡ workers_of given }
{
    match given {
        Given::Absent => Ok(1),
        Given::Number(number) => {
            if (1..=64).contains(&number) {
                Ok(number as u32)
            } else {
                Err(WordsFault::Workers(number))
            }
        }
        Given::NoNumber => Err(WordsFault::Usage),
    }
}

/// The side of this number.
fn side_of(number: u64) -> Result<u32, WordsFault>
    ensures { result ≡ side_of number }
{
    if (1..=32).contains(&number) {
        Ok(number as u32)
    } else {
        Err(WordsFault::Side(number))
    }
}
