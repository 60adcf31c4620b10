//! Lines of sources in memory, given in batches.
//!
//! A case is a line of the standard input: named fields with a semicolon between. `sources` are the sources' bytes with a
//! comma between, each behind its path and a colon where it has one; in them a bar stands for a line feed, a caret for
//! a carriage return and a tilde for 65,536 bytes `x`. `delimiter` is written alike, and a line feed where it isn't there.
//! `count`, `size` and `check`, a query, are the policy's. `piece` is how many bytes a read gives at most, `fail` the number, counted from 1, of
//! each source's read that fails, and `bound` the bytes that are taken at most; `fill` bytes more stand at each source's
//! front. What the intake gives is printed behind the line, a blank before each batch: each item behind its path, in
//! brackets, one of more than 40 bytes by its length, and the answer other than a batch. With `sizes` the lengths of the
//! buffers that were read into stand behind it.
#![tactic(auto)]

ghost use Rattle.std.specs.Prelude.{◌≡◌, ◌≤◌, ◌^◌, length, IfOk, None, true};
ghost use Rattle.std.specs.List.{All};

use bt_intake::intake::LineIntake;
use bt_intake::policy::Policy;
use bt_lexer::lex;
use bt_literals::ready;
use bt_ports::NoMemory;
use bt_ports::blob::Blob;
use bt_ports::memory::source::MemSource;
use bt_ports::outside::{Intake, Source};
use bt_ports::parts::{Items, Named, Next, Read, Sources};
use bt_ports::sequence::Sequence;
use bt_ports::text::Text;
use bt_ready::Ready;
use bt_syntax::parse_check;
use std::alloc::Global;
use std::io;

/// The longest line.
static LONG: [u8; 65_536] = [b'x'; 65_536];

// The value of the field of that name, which is empty where there is none.
fn field<'a>(line: &'a str, name: &str) -> &'a str {
    for part in line.split(';') {
        if let Some((key, value)) = part.split_once('=') {
            if key == name {
                return value;
            }
        }
    }
    ""
}

// The number in the field of that name, and 0 where there is none.
fn number(line: &str, name: &str) -> u64 {
    field(line, name).parse::<u64>().unwrap_or(0)
}

/// A source that keeps the lengths of the buffers that it was given.
#[derive(Drop)]
struct Measured {
    source: MemSource,
    sizes: Vec<usize>,
}

impl Source for Measured {
    ghost faults = { λ s. s.source.faults };

    ghost place = { λ s. s.source.place };

    ghost tells = { λ _. true };

    ghost bytes = { λ s. s.source.bytes };

    ghost taken = { λ s. s.source.taken };

    fn read(&mut self, buf: &mut [u8]) -> Read {
        let _ = self.sizes.push(buf.len());
        self.source.read(buf)
    }
}

// The bytes of a source, with line feeds and carriage returns, behind so many others.
fn bytes_of(alloc: Global, fill: u64, text: &str) -> Result<Blob, NoMemory> {
    let mut bytes = Vec::new(alloc);
    for _ in 0..fill {
        bytes.push(b'x')?;
    }
    for byte in text.as_bytes() {
        match *byte {
            b'|' => bytes.push(b'\n')?,
            b'^' => bytes.push(b'\r')?,
            b'~' => bytes.extend_from_slice(&LONG)?,
            other => bytes.push(other)?,
        }
    }
    Ok(Blob::from_vec(bytes))
}

// The delimiter of the case, or a line feed where it has none of 1 to 16 bytes.
fn delimiter(alloc: Global, line: &str) -> Result<Blob, NoMemory>
    ensures { IfOk result (λ d. (1 ≤ length d) × (length d ≤ 16)) }
{
    let bytes = bytes_of(alloc, 0, field(line, "delimiter"))?;
    let length = bytes.as_slice().len();
    if length == 0 || length > 16 {
        return Blob::make(alloc, b"\n".as_slice());
    }
    Ok(bytes)
}

// A source of which nothing was taken.
fn source(alloc: Global, line: &str, text: &str) -> Result<Named<Measured>, NoMemory>
    ensures { IfOk result (λ n. n.source.source.taken ≡ 0) }
{
    let mut calls = Sequence::new(alloc);
    calls.push(number(line, "fail"))?;
    let piece = (number(line, "piece") as usize).max(1);
    let (path, bytes) = match text.split_once(':') {
        Some((path, bytes)) => (Some(Text::make(alloc, path)?), bytes),
        None => (None, text),
    };
    let bytes = bytes_of(alloc, number(line, "fill").min(100_000), bytes)?;
    let source = Measured {
        source: MemSource::make(bytes, piece, calls),
        sizes: Vec::new(alloc),
    };
    Ok(Named { path, source })
}

// The sources of the case.
fn sources(alloc: Global, line: &str) -> Result<Sources<Measured>, NoMemory>
    ensures { IfOk result (λ all. All (λ n. n.source.source.taken ≡ 0) all.list) }
{
    let mut all = Sequence::new(alloc);
    for text in field(line, "sources").split(',') {
        all.push(source(alloc, line, text)?)?;
    }
    Ok(all)
}

fn push_bytes(text: &mut String, bytes: &[u8]) -> Result<(), NoMemory> {
    for byte in bytes {
        text.push(match *byte {
            b'\n' => '|',
            b'\r' => '^',
            other => char::from(other),
        })?;
    }
    Ok(())
}

// The lengths of the buffers that the sources were given.
fn push_sizes(text: &mut String, sources: &[Named<Measured>]) -> Result<(), NoMemory> {
    text.push_str(" reads")?;
    for named in sources {
        for size in named.source.sizes.as_slice() {
            write!(text, " {size}")?;
        }
    }
    Ok(())
}

fn push_items(text: &mut String, items: &Items) -> Result<(), NoMemory> {
    text.push(' ')?;
    for item in items.as_slice() {
        text.push('[')?;
        if let Some(path) = &item.path {
            write!(text, "{}:", path.as_str())?;
        }
        let bytes = item.bytes.as_slice();
        if bytes.len() > 40 {
            write!(text, "{} bytes", bytes.len())?;
        } else {
            push_bytes(text, bytes)?;
        }
        text.push(']')?;
    }
    Ok(())
}

// The check of the case, where it has one.
fn check(alloc: Global, line: &str) -> Option<Ready> {
    let text = field(line, "check");
    let tokens = lex(alloc, text).ok()?;
    let mapping = parse_check(alloc, text, &tokens).ok()?;
    ready(alloc, mapping).ok()
}

// The intake of the case.
fn intake(alloc: Global, line: &str) -> Result<LineIntake<Measured>, NoMemory>
    ensures { IfOk result (λ i. i.stopped ≡ None) }
{
    let bound = number(line, "bound").min(1_000_000);
    let policy = Policy {
        count: number(line, "count").min(1000) as u32,
        byte_size: number(line, "size"),
        check: check(alloc, line),
    };
    let delimiter = delimiter(alloc, line)?;
    let sources = sources(alloc, line)?;
    Ok(LineIntake::make(alloc, sources, delimiter, policy, bound)?)
}

// Puts what an intake gives.
fn push_answers(text: &mut String, intake: &mut LineIntake<Measured>) -> Result<(), NoMemory>
    requires { intake.old.stopped ≡ None }
{
    'answers: for _ in 0..1000 {
        let last = match intake.next() {
            Next::Batch(items) => {
                push_items(text, &items)?;
                continue;
            }
            Next::End => " end",
            Next::Failed => " failed",
            Next::LongLine(n) => {
                write!(text, " line {n} is too long")?;
                break;
            }
            Next::Bound => " bound",
            Next::NoMemory => " no memory",
        };
        text.push_str(last)?;
        break;
    }
    Ok(())
}

// What the intake of the case gives.
fn given(alloc: Global, line: &str) -> Result<String, NoMemory> {
    let mut intake = intake(alloc, line)?;
    let mut text = String::new(alloc);
    push_answers(&mut text, &mut intake)?;
    if !field(line, "sizes").is_empty() {
        push_sizes(&mut text, intake.into_sources().as_slice())?;
    }
    Ok(text)
}

fn main(rt: HostRuntime) -> io::Result<()> {
    for line in rt.lines(rt.alloc()) {
        let line = line?;
        match given(rt.alloc(), line.as_str()) {
            Ok(text) => println!(rt; "{line}{text}")?,
            Err(NoMemory) => println!(rt; "{line} no memory")?,
        }
    }
    Ok(())
}
