//! What the program is asked to do.

ghost use Rattle.std.specs.Prelude.{◌≡◌, map};
ghost use Rattle.estelle_words.specs.Words.{command_of, options_of, texts};

#[derive(Clone, Copy, Debug, PartialEq, Eq)]
pub enum Command {
    Run,
    Check,
    Show,
    Code,
    Replay,
    Make,
    Trial,
}

/// A command with its numbers. One whose option the command does not take has its default.
#[derive(Clone, Copy, Debug, PartialEq, Eq)]
pub struct Settings {
    pub command: Command,
    /// How many firings there are at most: 0 to 1,000,000.
    pub turns: u32,
    /// What choices start from. Without it the first candidate is always chosen.
    pub seed: Option<u64>,
    /// How many workers there are: 0 to 64. With 0 there are none.
    pub workers: u32,
    /// How many units each firing, each guard and the start have: 1 to 100,000,000.
    pub budget: u32,
    /// How many stations the ring has: 2 to 200.
    pub stations: u32,
}

static RUN_OPTIONS: [&str; 4] = ["turns", "seed", "workers", "budget"];

static REPLAY_OPTIONS: [&str; 1] = ["budget"];

static MAKE_OPTIONS: [&str; 1] = ["stations"];

static TRIAL_OPTIONS: [&str; 4] = ["stations", "turns", "seed", "budget"];

impl Command {
    /// The command of this name.
    pub fn named(word: &str) -> Option<Command>
        ensures { result ≡ command_of word.now }
    {
        if word == "run" {
            Some(Command::Run)
        } else if word == "check" {
            Some(Command::Check)
        } else if word == "show" {
            Some(Command::Show)
        } else if word == "code" {
            Some(Command::Code)
        } else if word == "replay" {
            Some(Command::Replay)
        } else if word == "make" {
            Some(Command::Make)
        } else if word == "trial" {
            Some(Command::Trial)
        } else {
            None
        }
    }

    /// The names of the options that the command takes.
    pub fn options<'a>(self) -> &'a [&'a str]
        ensures { texts result.now ≡ options_of self }
    {
        match self {
            Command::Run => RUN_OPTIONS.as_slice(),
            Command::Replay => REPLAY_OPTIONS.as_slice(),
            Command::Make => MAKE_OPTIONS.as_slice(),
            Command::Trial => TRIAL_OPTIONS.as_slice(),
            Command::Check | Command::Show | Command::Code => &[],
        }
    }
}
