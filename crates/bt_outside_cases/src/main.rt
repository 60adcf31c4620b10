//! Tries the real outside, and prints what came of each call: what sinks and answers append to files, a sink that is
//! full, files read within a limit, the standard input opened twice, and the clock.
#![tactic(auto)]

use bt_outside::RealWorld;
use bt_ports::outside::{Answerer, Clock, Sink, Source};
use bt_ports::parts::{Cause, FileRead, Opened, Read, Verdict};
use bt_ports::world::World;
use std::alloc::AllocError;
use std::{fs, io, process};

// A path that no other run uses.
fn path(rt: HostRuntime, name: &str) -> Result<String, AllocError> {
    let id = process::id(rt.process());
    format!(in rt.alloc(); "/tmp/benthos-{id}-{name}")
}

fn told(done: bool) -> &'static str {
    if done { "done" } else { "failed" }
}

// Puts a record into a sink that is opened for it alone, with `;` and a line feed as its closing bytes.
fn put(rt: HostRuntime, name: &str, record: &[u8]) -> &'static str {
    match RealWorld::make(rt).open_sink(name, b";\n") {
        Opened::Got(mut sink) => told(sink.put(1, 0, 0, 0, record).is_ok()),
        Opened::Failed => "cannot open",
        Opened::NoMemory => "no memory",
    }
}

// A file that is missing is made, and one that is there is appended to.
fn sinks(rt: HostRuntime) -> io::Result<()> {
    let path = path(rt, "sink")?;
    let name = format!(in rt.alloc(); "file:{path}")?;
    println!(rt; "put a: {}", put(rt, name.as_str(), b"a"))?;
    println!(rt; "put b: {}", put(rt, name.as_str(), b"b"))?;
    print!(rt; "{}", fs::read_to_string(&rt, path.as_str())?.as_str())?;
    fs::remove_file(&rt, path.as_str())?;
    println!(rt;
        "put into a full device: {}",
        put(rt, "file:/dev/full", b"a")
    )?;
    println!(rt; "put into a sink of no kind: {}", put(rt, "nowhere", b"a"))
}

// Each answer is a line.
fn answers(rt: HostRuntime) -> io::Result<()> {
    let path = path(rt, "answers")?;
    if let Opened::Got(mut answerer) = RealWorld::make(rt).open_answers(Some(path.as_str())) {
        let causes = [
            Cause::SinkFault { leaf: 2, part: 1 },
            Cause::Rejected { part: 3 },
            Cause::NoMemory,
        ];
        let acknowledged = answerer.answer(1, 0, &Verdict::Ack, b"").is_ok();
        println!(rt; "acknowledge: {}", told(acknowledged))?;
        for cause in causes {
            let refused = answerer
                .answer(7, 4, &Verdict::Refused(cause), b"a \"b\"")
                .is_ok();
            println!(rt; "refuse: {}", told(refused))?;
        }
    }
    print!(rt; "{}", fs::read_to_string(&rt, path.as_str())?.as_str())?;
    fs::remove_file(&rt, path.as_str())?;
    if let Opened::Got(mut answerer) = RealWorld::make(rt).open_answers(None) {
        let acknowledged = answerer.answer(1, 0, &Verdict::Ack, b"").is_ok();
        println!(rt; "acknowledge without a file: {}", told(acknowledged))?;
    }
    Ok(())
}

// Reads a file of three bytes within a limit.
fn read_within(rt: HostRuntime, path: &str, limit: u64) -> &'static str {
    match RealWorld::make(rt).read_file(path, limit) {
        FileRead::Bytes(bytes) => told(bytes.as_slice() == b"abc".as_slice()),
        FileRead::TooLong => "too long",
        FileRead::Failed => "failed",
        FileRead::NoMemory => "no memory",
    }
}

// Reads two bytes at most.
fn read_two<S: Source>(rt: HostRuntime, source: &mut S) -> io::Result<()> {
    match source.read(&mut [0u8; 2]) {
        Read::Count(count) => println!(rt; "read: {count}"),
        Read::End => println!(rt; "read: end"),
        Read::Failed => println!(rt; "read: failed"),
    }
}

fn files(rt: HostRuntime) -> io::Result<()> {
    let path = path(rt, "file")?;
    fs::write(&rt, path.as_str(), "abc")?;
    println!(rt;
        "three bytes within 3: {}",
        read_within(rt, path.as_str(), 3)
    )?;
    println!(rt;
        "three bytes within 2: {}",
        read_within(rt, path.as_str(), 2)
    )?;
    if let Opened::Got(mut source) = RealWorld::make(rt).open_source(path.as_str()) {
        for _ in 0..3 {
            read_two(rt, &mut source)?;
        }
    }
    fs::remove_file(&rt, path.as_str())?;
    println!(rt; "no file: {}", read_within(rt, path.as_str(), 3))?;
    let opened = RealWorld::make(rt).open_source(path.as_str());
    println!(rt;
        "no file as a source: {}",
        told(matches!(opened, Opened::Got(_)))
    )
}

// The first to open the standard input has its bytes.
fn standard_input(rt: HostRuntime) -> io::Result<()> {
    let mut world = RealWorld::make(rt);
    let first = world.open_source("stdin");
    if let Opened::Got(mut second) = world.open_source("stdin") {
        read_two(rt, &mut second)?;
    }
    if let Opened::Got(mut first) = first {
        read_two(rt, &mut first)?;
        read_two(rt, &mut first)?;
    }
    Ok(())
}

fn main(rt: HostRuntime) -> io::Result<()> {
    sinks(rt)?;
    answers(rt)?;
    files(rt)?;
    standard_input(rt)?;
    let mut clock = RealWorld::make(rt).take_clock();
    println!(rt;
        "the clock is behind the year 2020: {}",
        clock.now() > 1_577_836_800_000
    )
}
