//! One case.
ghost use Rattle.std.specs.Prelude.{◌≡◌, IfOk};

use bt_commands::status::Status;
use bt_ports::NoMemory;
use bt_ports::blob::Blob;
use bt_ports::memory::clock::MemClock;
use bt_ports::memory::source::MemSource;
use bt_ports::memory::world::{Failing, File, MemWorld, SinkCall};
use bt_ports::parts::Calls;
use bt_ports::sequence::Sequence;
use bt_ports::text::Text;
use bt_top::command::benthos;
use std::alloc::{AllocError, Global};

/// A case, by the fields of its line. A field that is missing is empty, and a number that can't be read is 0.
#[derive(Clone, Copy)]
pub struct Case<'a> {
    line: &'a str,
}

fn number(field: &str) -> u64 {
    field.parse::<u64>().unwrap_or(0)
}

// The word, with a line feed in place of each caret.
fn word_of(alloc: Global, word: &str) -> Result<String, AllocError> {
    let mut text = String::new(alloc);
    for (i, line) in word.split('^').enumerate() {
        if i > 0 {
            text.push('\n')?;
        }
        text.push_str(line)?;
    }
    Ok(text)
}

impl<'a> Case<'a> {
    /// The case that the line has.
    pub fn read(line: &'a str) -> Case<'a> {
        Case { line }
    }

    /// Its name.
    pub fn name(&self) -> &'a str {
        self.line.split(';').next().unwrap_or("")
    }

    // The value of the field of that name, which is empty where there is none.
    fn field(&self, name: &str) -> &'a str {
        for part in self.line.split(';') {
            if let Some((key, value)) = part.split_once('=') {
                if key == name {
                    return value;
                }
            }
        }
        ""
    }

    // The list of the one call whose number the field of that name has.
    fn calls(&self, alloc: Global, name: &str) -> Result<Calls, NoMemory> {
        let mut calls = Sequence::new(alloc);
        let number = number(self.field(name));
        if number > 0 {
            calls.push(number)?;
        }
        Ok(calls)
    }

    // The standard input, which is read in pieces of two bytes.
    fn stdin(&self, alloc: Global) -> Result<MemSource, NoMemory>
        ensures { IfOk result (λ source. source.made ≡ 0) }
    {
        let mut bytes = Vec::new(alloc);
        for byte in self.field("input").as_bytes() {
            let byte = if *byte == b'|' { b'\n' } else { *byte };
            bytes.push(byte)?;
        }
        Ok(MemSource::make(Blob::from_vec(bytes), 2, self.calls(alloc, "read")?))
    }

    // The calls that fail.
    fn failing(&self, alloc: Global) -> Result<Failing, NoMemory> {
        let mut sinks = Sequence::new(alloc);
        let put = SinkCall {
            name: Text::make(alloc, "stdout")?,
            call: number(self.field("put")),
        };
        sinks.push(put)?;
        Ok(Failing {
            opens: self.calls(alloc, "open")?,
            files: Sequence::new(alloc),
            sinks,
            answers: self.calls(alloc, "answer")?,
            prints: self.calls(alloc, "print")?,
        })
    }

    // The world of the case: the one file, the input, a clock without readings and the calls that fail.
    fn world(&self, alloc: Global) -> Result<MemWorld, NoMemory> {
        let mut files = Sequence::new(alloc);
        let file = File {
            name: Text::make(alloc, "c.json")?,
            bytes: Blob::make(alloc, self.field("file").as_bytes())?,
        };
        files.push(file)?;
        let stdin = self.stdin(alloc)?;
        let clock = MemClock::make(Sequence::new(alloc));
        Ok(MemWorld::make(alloc, files, stdin, clock, self.failing(alloc)?))
    }

    /// Does what the words ask over the world of the case.
    pub fn run(&self, alloc: Global) -> Result<(Status, MemWorld), NoMemory> {
        let mut words = Vec::new(alloc);
        for word in self.field("words").split('~') {
            words.push(word_of(alloc, word)?)?;
        }
        let mut world = self.world(alloc)?;
        let status = benthos(alloc, &words, &mut world);
        Ok((status, world))
    }
}
