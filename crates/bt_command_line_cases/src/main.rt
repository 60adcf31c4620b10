//! Prints what words of the command line are read as.
//!
//! A case is a line of the standard input, whose words stand between bars. It is printed, and below
//! it the command, indented by two spaces.
#![tactic(auto)]

use bt_command_line::{Command, WordsFault, read_command};
use std::alloc::{AllocError, Global};
use std::io;

// A text in brackets, or that there is none.
fn shown(alloc: Global, text: Option<&str>) -> Result<String, AllocError> {
    match text {
        Some(text) => format!(in alloc; "[{text}]"),
        None => String::from_str(alloc, "none"),
    }
}

// The command with its parts.
fn described(alloc: Global, command: &Command<'_>) -> Result<String, AllocError> {
    match command {
        Command::Run {
            config,
            answers,
            trace,
        } => {
            let answers = shown(alloc, *answers)?;
            let trace = shown(alloc, *trace)?;
            format!(in alloc; "run [{config}] answers {answers} trace {trace}")
        }
        Command::Lint { migrate, file } => format!(in alloc; "lint [{file}] migrate {migrate}"),
        Command::Test { file } => format!(in alloc; "test [{file}]"),
        Command::Blobl {
            raw,
            pretty,
            mapping,
        } => { format!(in alloc; "blobl [{mapping}] raw {raw} pretty {pretty}") }
        Command::Load { number, seed } => format!(in alloc; "load {number} {seed}"),
        Command::Audit { config, trace } => format!(in alloc; "audit [{config}] trace [{trace}]"),
    }
}

// What the words of the line are read as.
fn report(alloc: Global, line: &str) -> Result<String, AllocError> {
    let mut words = Vec::new(alloc);
    for word in line.split('|') {
        words.push(String::from_str(alloc, word)?)?;
    }
    match read_command(alloc, words.as_slice()) {
        Ok(command) => described(alloc, &command),
        Err(WordsFault::NoCommand) => String::from_str(alloc, "no command"),
        Err(WordsFault::NoMemory) => String::from_str(alloc, "no memory"),
    }
}

fn main(rt: HostRuntime) -> io::Result<()> {
    for line in rt.lines(rt.alloc()) {
        let line = line?;
        let command = report(rt.alloc(), line.as_str())?;
        println!(rt; "{line}")?;
        println!(rt; "  {command}")?;
    }
    Ok(())
}
