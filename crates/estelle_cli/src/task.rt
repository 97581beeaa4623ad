//! What the words of the command line ask for.

ghost use Rattle.std.specs.Prelude.{◌≡◌, IfOk};
ghost use Rattle.estelle_words.specs.Words.{texts};
ghost use Rattle.estelle_cli.specs.Tasks.{asked, task_of, limits_of};

use estelle_words::{Command, Settings, settings};
use situation::Limits;
use std::alloc::{AllocError, Global};

/// What is done.
#[derive(Clone, Copy, Debug, PartialEq, Eq)]
pub enum Task {
    /// The input is run, and the trace of its run is written. Choices are those of the seed, or the first candidates, and of the order
    /// in which workers get their turns, where there are any.
    Run {
        limits: Limits,
        seed: Option<u64>,
        workers: u32,
    },
    /// The rules of the input are judged.
    Check,
    /// The rules of the input are judged, and its canonical text is written.
    Show,
    /// The bodies of the input are compiled, and the listing of their code is written.
    Code,
    /// The trace behind the specification is judged, and it is written how many events it has. Each firing has so many units.
    Replay {
        budget: u32,
    },
    /// The canonical text of the ring of so many stations is written. No input is read.
    Make(u32),
    /// The ring of so many stations is run, and the counts and the end of its run are written. No input is read.
    Trial {
        stations: u32,
        limits: Limits,
        seed: Option<u64>,
    },
}

/// How far a run goes.
fn limits_of(settings: Settings) -> Limits
    ensures { result ≡ limits_of settings }
{
    Limits {
        turns: settings.turns,
        budget: settings.budget,
    }
}

/// The task that settings stand for.
fn task_of(settings: Settings) -> Task
    ensures { result ≡ task_of settings }
{
    match settings.command {
        Command::Run => Task::Run {
            limits: limits_of(settings),
            seed: settings.seed,
            workers: settings.workers,
        },
        Command::Check => Task::Check,
        Command::Show => Task::Show,
        Command::Code => Task::Code,
        Command::Replay => Task::Replay {
            budget: settings.budget,
        },
        Command::Make => Task::Make(settings.stations),
        Command::Trial => Task::Trial {
            stations: settings.stations,
            limits: limits_of(settings),
            seed: settings.seed,
        },
    }
}

/// What the words behind the program's name ask for, where they have a meaning.
pub fn asked(alloc: Global, words: &[&str]) -> Result<Option<Task>, AllocError>
    ensures { IfOk result (λ found. found ≡ asked (texts words.now)) }
{
    match settings(alloc, words)? {
        Some(settings) => Ok(Some(task_of(settings))),
        None => Ok(None),
    }
}
