//! The objects of the outside in memory, each by itself.
use crate::fields::{Fields, joined, number, shown};
use bt_ports::NoMemory;
use bt_ports::blob::Blob;
use bt_ports::memory::answerer::MemAnswerer;
use bt_ports::memory::clock::MemClock;
use bt_ports::memory::printer::MemPrinter;
use bt_ports::memory::sink::MemSink;
use bt_ports::memory::source::MemSource;
use bt_ports::outside::{Answerer, Clock, Printer, Sink, Source};
use bt_ports::parts::{Cause, Read, Records, Verdict};
use std::alloc::Global;

/// What each read gives, into a buffer of so many bytes.
pub(crate) fn source(alloc: Global, fields: &Fields) -> Result<String, NoMemory> {
    let bytes = Blob::make(alloc, fields.get("bytes").as_bytes())?;
    let piece = (number(fields.get("piece")) as usize).max(1);
    let mut source = MemSource::make(bytes, piece, fields.numbers(alloc, "fail")?);
    let rooms = fields.numbers(alloc, "rooms")?;
    let mut text = String::new(alloc);
    let mut buffer = [0u8; 8];
    for room in rooms.as_slice() {
        let room = (*room as usize).max(1).min(8);
        match source.read(&mut buffer[..room]) {
            Read::Count(n) => write!(text, " {}", shown(&buffer[..n.min(8)]))?,
            Read::End => text.push_str(" end")?,
            Read::Failed => text.push_str(" failed")?,
        }
    }
    Ok(text)
}

fn push_records(text: &mut String, records: &Records) -> Result<(), NoMemory> {
    for record in records.as_slice() {
        let bytes = shown(record.bytes.as_slice());
        write!(
            text,
            " {}.{}.{}.{} {bytes}",
            record.txn, record.part, record.leaf, record.batch
        )?;
    }
    Ok(())
}

/// The records that were accepted and those that were refused, where each has a transaction of its own.
pub(crate) fn sink(alloc: Global, fields: &Fields) -> Result<String, NoMemory> {
    let mut sink = MemSink::make(alloc, fields.numbers(alloc, "fail")?);
    let mut text = String::new(alloc);
    for (i, bytes) in fields.get("put").split(',').enumerate() {
        let put = sink.put(i as u64, 5, 6, 7, bytes.as_bytes());
        text.push_str(if put.is_ok() { " ok" } else { " failed" })?;
    }
    text.push_str(" accepted")?;
    push_records(&mut text, sink.accepted())?;
    text.push_str(" refused")?;
    push_records(&mut text, sink.refused())?;
    Ok(text)
}

/// The calls at an answerer, which rejects each item with a text.
pub(crate) fn answerer(alloc: Global, fields: &Fields) -> Result<String, NoMemory> {
    let mut answerer = MemAnswerer::make(alloc, fields.numbers(alloc, "fail")?);
    let verdict = Verdict::Refused(Cause::Rejected { part: 3 });
    for (i, why) in fields.get("why").split(',').enumerate() {
        let _ = answerer.answer(7, i as u64, &verdict, why.as_bytes());
    }
    let mut text = String::new(alloc);
    for call in answerer.answers().as_slice() {
        let why = shown(call.why.as_slice());
        write!(
            text,
            " {} {} {:?} {why} failed {}",
            call.number, call.item, call.verdict, call.failed
        )?;
    }
    Ok(text)
}

/// The readings of a clock, as often as is told.
pub(crate) fn clock(alloc: Global, fields: &Fields) -> Result<String, NoMemory> {
    let mut clock = MemClock::make(fields.numbers(alloc, "readings")?);
    let mut text = String::new(alloc);
    for _ in 0..number(fields.get("times")) {
        write!(text, " {}", clock.now())?;
    }
    let readings = joined(alloc, clock.readings().as_slice())?;
    write!(text, " readings [{readings}]")?;
    Ok(text)
}

/// What a printer has after these pieces, and whether each was printed.
pub(crate) fn printer(alloc: Global, fields: &Fields) -> Result<String, NoMemory> {
    let mut printer = MemPrinter::make(alloc, fields.numbers(alloc, "fail")?);
    let mut text = String::new(alloc);
    for piece in fields.get("print").split(',') {
        let print = printer.print(piece.as_bytes());
        text.push_str(if print.is_ok() { " ok" } else { " failed" })?;
    }
    write!(text, " printed {}", shown(printer.bytes().as_slice()))?;
    Ok(text)
}
