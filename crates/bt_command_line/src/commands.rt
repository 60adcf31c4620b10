//! Commands.

use thiserror::Error;

/// The word that names a command.
#[derive(Clone, Copy, Debug, PartialEq, Eq)]
pub enum Word {
    /// `run`
    Run,
    /// `lint`
    Lint,
    /// `test`
    Test,
    /// `blobl`
    Blobl,
    /// `load`
    Load,
    /// `audit`
    Audit,
}

/// A command with what its words say.
#[derive(Clone, Copy)]
pub enum Command<'a> {
    /// Run a configuration.
    Run {
        /// The configuration's file.
        config: &'a str,
        /// The file of the answers.
        answers: Option<&'a str>,
        /// What the names of the trace files begin with.
        trace: Option<&'a str>,
    },
    /// Lint a configuration.
    Lint {
        /// Whether a configuration without lints is printed in the words of version 2.
        migrate: bool,
        /// Its file.
        file: &'a str,
    },
    /// Run a configuration's tests.
    Test {
        /// Its file.
        file: &'a str,
    },
    /// Map each line of the standard input.
    Blobl {
        /// Whether lines are taken as they are, JSON or not.
        raw: bool,
        /// Whether lists and objects are printed over several lines.
        pretty: bool,
        /// The mapping's text.
        mapping: &'a str,
    },
    /// Run a load of lines.
    Load {
        /// How many, from 1 to 1,000,000.
        number: u64,
        /// What they begin with.
        seed: u64,
    },
    /// Audit the trace of a run.
    Audit {
        /// The configuration's file.
        config: &'a str,
        /// What the names of the trace files begin with.
        trace: &'a str,
    },
}

/// Why words are no command.
#[derive(Clone, Copy, Debug, PartialEq, Eq, Error)]
pub enum WordsFault {
    /// They are of no command's form, or a number is outside its limits.
    #[error("no command")]
    NoCommand,
    /// Memory ran out.
    #[error("out of memory")]
    NoMemory,
}
