//! The outside as a whole, in memory.
ghost use Rattle.std.specs.Prelude.{◌≡◌, ℕ, ◌+◌, ◌≤◌, ◌||◌, List, [], ◌∷◌, ◌++◌, length, true, if◌then◌else◌, IsTrue, IfOk, OnErr, OnOk, Option, Some, None, option_map, option_copied, is_err, is_none};
ghost use Rattle.bt_ports.specs.Faults.{Rose, one_more};
ghost use Rattle.bt_ports.specs.MemWorld.{find_file, puts_at, mem_tale, new_world, reading_failed, IfRead, opening_failed, IfOpened, bytes_of, mem_source, stdin_after, is_missing, taken_clock};
ghost use Rattle.bt_ports.specs.Memory.{is_named};
ghost use Rattle.bt_ports.specs.Printer.{PrintAdds};
ghost use Rattle.bt_ports.specs.World.{once_more, FileFaults, FileGives, OpenFaults, IfGot, source_bytes, calls_with_reading, calls_with_opening};
ghost use Rattle.bt_ports.specs.declared.parts.FileRead.TheVariants as FileRead;

use crate::NoMemory;
use crate::blob::Blob;
use crate::memory::answerer::MemAnswerer;
use crate::memory::clock::MemClock;
use crate::memory::names;
use crate::memory::printer::MemPrinter;
use crate::memory::sink::MemSink;
use crate::memory::source::MemSource;
use crate::outside::Printer;
use crate::parts::{
    Asked, AskedList, Blobs, Calls, Ends, FileRead, Opened, PrintFailed, Sources, What,
};
use crate::sequence::Sequence;
use crate::text::Text;
use crate::world::World;
use std::alloc::Global;
use std::marker::Model;

/// A file of a world in memory.
#[derive(Drop)]
pub struct File {
    pub name: Text,
    pub bytes: Blob,
}

/// The files of a world in memory. Of two of one name the first counts.
pub type Files = Sequence<File>;

/// The put of this number at the sink of this name.
#[derive(Drop)]
pub struct SinkCall {
    pub name: Text,
    pub call: u64,
}

/// Puts at sinks.
pub type SinkCalls = Sequence<SinkCall>;

/// The calls of a world in memory that fail: of all its openings together, of its readings of files, of the puts at
/// its sinks, of the calls at its answerer, and of its prints.
#[derive(Drop)]
pub struct Failing {
    pub opens: Calls,
    pub files: Calls,
    pub sinks: SinkCalls,
    pub answers: Calls,
    pub prints: Calls,
}

/// A world over files, a standard input and a clock that it was given.
#[derive(Drop)]
pub struct MemWorld {
    alloc: Global,
    files: Files,
    stdin: Option<MemSource>,
    clock: Option<MemClock>,
    printer: MemPrinter,
    failing_opens: Calls,
    failing_files: Calls,
    failing_sinks: SinkCalls,
    failing_answers: Calls,
    opened: u64,
    files_read: u64,
    open_faults: u64,
    file_faults: u64,
    clocks: u64,
    keeps: u64,
    input_keeps: u64,
    load_keeps: u64,
    lost_lines: bool,
    calls: AskedList,
    lines: Blobs,
    kept: Option<Ends<MemSource, MemSink, MemAnswerer, MemClock>>,
    kept_input: Option<Sources<MemSource>>,
    kept_load: Option<Ends<MemSource, MemSink, MemAnswerer, MemClock>>,
}

impl Model for MemWorld {
    ghost use Rattle.std.specs.Prelude.{not};
    ghost use Rattle.bt_ports.specs.MemWorld.{WorldView};

    ghost Value = { WorldView };

    ghost view = { λ w. record {
      files = w.files.list;
      stdin = w.stdin;
      clock = w.clock;
      printer = w.printer;
      failing_opens = w.failing_opens.list;
      failing_files = w.failing_files.list;
      failing_sinks = w.failing_sinks.list;
      failing_answers = w.failing_answers.list;
      opened = w.opened;
      files_read = w.files_read;
      open_faults = w.open_faults;
      file_faults = w.file_faults;
      calls = w.calls.list;
      lines = w.lines.list;
      tells_lines = not w.lost_lines;
      clocks = w.clocks;
      keeps = w.keeps;
      kept = w.kept;
      input_keeps = w.input_keeps;
      kept_input = w.kept_input;
      load_keeps = w.load_keeps;
      kept_load = w.kept_load;
    } };
}

// The call joins the list of calls, and its place there is given, from 1.
fn ask(
    alloc: Global,
    calls: &mut AskedList,
    what: What,
    name: Option<&str>,
    failed: bool,
    end: Option<&[u8]>,
) -> Result<u64, NoMemory>
    ensures ok { IfOk result (λ place. (calls.new.list ≡ calls.old.list ++ record { what = what; name = option_map (λ p. p.now) name.entry; failed = failed; end = option_map (λ p. p.now) end.entry } ∷ []) × (place ≡ length calls.new.list)) }
    ensures err { OnErr result (calls.new.list ≡ calls.old.list) }
{
    let name = match name {
        None => None,
        Some(s) => Some(Text::make(alloc, s)?),
    };
    let end = match end {
        None => None,
        Some(b) => Some(Blob::make(alloc, b)?),
    };
    calls.push(Asked {
        what,
        name,
        failed,
        end,
    })?;
    Ok(calls.len() as u64)
}

// The bytes of the first file of that name.
fn find<'a>(files: &'a [File], name: &str) -> Option<&'a Blob>
    ensures { option_map (λ b. b.now) result ≡ find_file files.now name.now }
{
    for file in files {
        if file.name.as_str() == name {
            return Some(&file.bytes);
        }
    }
    None
}

// The numbers of the puts that fail at the sink of that name.
fn failing_puts(alloc: Global, sinks: &[SinkCall], name: &str) -> Result<Calls, NoMemory>
    ensures { IfOk result (λ calls. calls.list ≡ puts_at sinks.now name.now) }
{
    let mut calls = Sequence::new(alloc);
    for sink in sinks {
        if sink.name.as_str() == name {
            calls.push(sink.call)?;
        }
    }
    Ok(calls)
}

// A list of the same numbers.
fn copy(alloc: Global, numbers: &[u64]) -> Result<Calls, NoMemory>
    ensures { IfOk result (λ calls. calls.list ≡ numbers.now) }
{
    let mut calls = Sequence::new(alloc);
    for number in numbers {
        calls.push(*number)?;
    }
    Ok(calls)
}

// A copy of the file's bytes, unless there are more than the limit.
fn load(alloc: Global, file: &Blob, limit: u64) -> FileRead
    ensures gives { FileGives result (Some file.now) limit }
    ensures loads { ¬ (result ≡ FileRead.Failed) }
{
    let bytes = file.as_slice();
    if bytes.len() as u64 > limit {
        return FileRead::TooLong;
    }
    match Blob::make(alloc, bytes) {
        Ok(bytes) => FileRead::Bytes(bytes),
        Err(NoMemory) => FileRead::NoMemory,
    }
}

// A source without bytes.
fn empty_source(alloc: Global) -> MemSource
    ensures { result ≡ record { faults = 0; place = 0; bytes = []; taken = 0; piece = 1; failing = []; made = 0 } }
{
    MemSource::make(Blob::new(alloc), 1, Sequence::new(alloc))
}

// A source over a copy of the file, which gives as many bytes as asked and fails at no read.
fn source_over(alloc: Global, file: Option<&Blob>) -> Opened<MemSource>
    ensures bytes { IfGot result (λ s. option_map (λ b. b.now) file.entry ≡ Some s.bytes) }
    ensures missing { IfOpened result (opening_failed result ≡ is_none (option_map (λ b. b.now) file.entry)) }
    ensures whole { IfGot result (λ s. s ≡ record { faults = 0; place = 0; bytes = s.bytes; taken = 0; piece = usize.MAX; failing = []; made = 0 }) }
{
    let Some(file) = file else {
        return Opened::Failed;
    };
    match Blob::make(alloc, file.as_slice()) {
        Ok(bytes) => Opened::Got(MemSource::make(bytes, usize::MAX, Sequence::new(alloc))),
        Err(NoMemory) => Opened::NoMemory,
    }
}

impl MemWorld {
    /// A world over `files`, whose standard input is `stdin`, whose clock is `clock`, and whose calls in `failing` fail.
    pub fn make(
        alloc: Global,
        files: Files,
        stdin: MemSource,
        clock: MemClock,
        failing: Failing,
    ) -> MemWorld
        requires source { stdin.made ≡ 0 }
        requires readings { clock.made ≡ 0 }
        ensures { result ≡ new_world files.list stdin clock (record { faults = 0; place = 0; tells = true; bytes = []; failing = failing.prints.list; made = 0 }) failing.opens.list failing.files.list failing.sinks.list failing.answers.list }
    {
        let Failing {
            opens,
            files: readings,
            sinks,
            answers,
            prints,
        } = failing;
        MemWorld {
            alloc,
            files,
            stdin: Some(stdin),
            clock: Some(clock),
            printer: MemPrinter::make(alloc, prints),
            failing_opens: opens,
            failing_files: readings,
            failing_sinks: sinks,
            failing_answers: answers,
            opened: 0,
            files_read: 0,
            open_faults: 0,
            file_faults: 0,
            clocks: 0,
            keeps: 0,
            input_keeps: 0,
            load_keeps: 0,
            lost_lines: false,
            calls: Sequence::new(alloc),
            lines: Sequence::new(alloc),
            kept: None,
            kept_input: None,
            kept_load: None,
        }
    }

    /// What was printed.
    pub fn bytes(&self) -> &Blob
        ensures { result.now ≡ self.now.printer.bytes }
    {
        self.printer.bytes()
    }

    /// The lines of `err`, without their line breaks.
    pub fn lines(&self) -> &Blobs
        ensures { result.now.list ≡ self.now.lines }
    {
        &self.lines
    }

    /// The readings of files and the openings that were asked for.
    pub fn calls(&self) -> &AskedList
        ensures { result.now.list ≡ self.now.calls }
    {
        &self.calls
    }

    /// What `keep` was given last.
    pub fn kept(&self) -> Option<&Ends<MemSource, MemSink, MemAnswerer, MemClock>>
        ensures { option_copied result ≡ self.now.kept }
    {
        self.kept.as_ref()
    }

    /// What `keep_input` was given last.
    pub fn kept_input(&self) -> Option<&Sources<MemSource>>
        ensures { option_copied result ≡ self.now.kept_input }
    {
        self.kept_input.as_ref()
    }

    /// What `keep_load` was given last.
    pub fn kept_load(&self) -> Option<&Ends<MemSource, MemSink, MemAnswerer, MemClock>>
        ensures { option_copied result ≡ self.now.kept_load }
    {
        self.kept_load.as_ref()
    }
}

impl World for MemWorld {
    type S = MemSource;

    type K = MemSink;

    type A = MemAnswerer;

    type C = MemClock;

    ghost tells = { λ _. true };

    ghost tells_printed = { λ w. w.printer.tells };

    ghost tells_lines = { λ w. w.tells_lines };

    ghost tale = { mem_tale };

    ghost file_faults = { λ w. w.file_faults };

    ghost open_faults = { λ w. w.open_faults };

    ghost print_faults = { λ w. w.printer.faults };

    fn read_file(&mut self, path: &str, limit: u64) -> FileRead
        ensures counted { self.old.file_faults ≤ self.new.file_faults }
        ensures failed { FileFaults result self.old.file_faults self.new.file_faults }
        ensures gives { FileGives result (find_file self.old.files path.now) limit }
        ensures fails { IfRead result (reading_failed result ≡ (is_named self.old.failing_files self.new.files_read || is_none (find_file self.old.files path.now))) }
        ensures after { self.new ≡ record self.old { calls = calls_with_reading result path.now self.old.calls; files_read = one_more self.old.files_read; file_faults = (if reading_failed result then one_more self.old.file_faults else self.old.file_faults) } }
    {
        self.files_read = self.files_read.saturating_add(1);
        let read = if names(&self.failing_files, self.files_read) {
            FileRead::Failed
        } else {
            match find(self.files.as_slice(), path) {
                None => FileRead::Failed,
                Some(file) => load(self.alloc, file, limit),
            }
        };
        let failed = match &read {
            FileRead::NoMemory => return FileRead::NoMemory,
            FileRead::Failed => true,
            FileRead::Bytes(_) | FileRead::TooLong => false,
        };
        match ask(
            self.alloc,
            &mut self.calls,
            What::File,
            Some(path),
            failed,
            None,
        ) {
            Ok(_) => {
                if failed {
                    self.file_faults = self.file_faults.saturating_add(1);
                }
                read
            }
            Err(NoMemory) => FileRead::NoMemory,
        }
    }

    fn open_source(&mut self, name: &str) -> Opened<MemSource>
        ensures counted { self.old.open_faults ≤ self.new.open_faults }
        ensures failed { OpenFaults result self.old.open_faults self.new.open_faults }
        ensures told { IfGot result (λ s. source_bytes (find_file self.old.files) (bytes_of self.old.stdin) name.now ≡ Some s.bytes) }
        ensures fresh { IfGot result (λ s. (s.faults ≡ 0) × (s.taken ≡ 0)) }
        ensures placed { IfGot result (λ s. s.place ≡ length self.new.calls) }
        ensures gives { IfGot result (λ s. s ≡ mem_source self.old.files self.old.stdin name.now (length self.new.calls)) }
        ensures fails { IfOpened result (opening_failed result ≡ (is_named self.old.failing_opens self.new.opened || is_missing self.old.files name.now)) }
        ensures after { self.new ≡ record self.old { calls = calls_with_opening result What.Source (Some name.now) None self.old.calls; stdin = stdin_after result name.now self.old.stdin; opened = one_more self.old.opened; open_faults = (if opening_failed result then one_more self.old.open_faults else self.old.open_faults) } }
    {
        self.opened = self.opened.saturating_add(1);
        let from_stdin = name == "stdin";
        let found = if names(&self.failing_opens, self.opened) {
            Opened::Failed
        } else if from_stdin {
            Opened::Got(empty_source(self.alloc))
        } else {
            source_over(self.alloc, find(self.files.as_slice(), name))
        };
        match found {
            Opened::NoMemory => Opened::NoMemory,
            Opened::Failed => {
                match ask(
                    self.alloc,
                    &mut self.calls,
                    What::Source,
                    Some(name),
                    true,
                    None,
                ) {
                    Ok(_) => {
                        self.open_faults = self.open_faults.saturating_add(1);
                        Opened::Failed
                    }
                    Err(NoMemory) => Opened::NoMemory,
                }
            }
            Opened::Got(source) => {
                match ask(
                    self.alloc,
                    &mut self.calls,
                    What::Source,
                    Some(name),
                    false,
                    None,
                ) {
                    Ok(place) => {
                        if from_stdin {
                            if let Some(stdin) = self.stdin.take() {
                                return Opened::Got(stdin.placed(place));
                            }
                        }
                        Opened::Got(source.placed(place))
                    }
                    Err(NoMemory) => Opened::NoMemory,
                }
            }
        }
    }

    fn open_sink(&mut self, name: &str, end: &[u8]) -> Opened<MemSink>
        ensures counted { self.old.open_faults ≤ self.new.open_faults }
        ensures failed { OpenFaults result self.old.open_faults self.new.open_faults }
        ensures fresh { IfGot result (λ s. (s.faults ≡ 0) × (s.accepted ≡ []) × (s.refused ≡ [])) }
        ensures placed { IfGot result (λ s. s.place ≡ length self.new.calls) }
        ensures gives { IfGot result (λ s. s ≡ record { faults = 0; place = length self.new.calls; tells = true; accepted = []; refused = []; failing = puts_at self.old.failing_sinks name.now; made = 0 }) }
        ensures fails { IfOpened result (opening_failed result ≡ is_named self.old.failing_opens self.new.opened) }
        ensures after { self.new ≡ record self.old { calls = calls_with_opening result What.Sink (Some name.now) (Some end.now) self.old.calls; opened = one_more self.old.opened; open_faults = (if opening_failed result then one_more self.old.open_faults else self.old.open_faults) } }
    {
        self.opened = self.opened.saturating_add(1);
        let failed = names(&self.failing_opens, self.opened);
        let failing = match failing_puts(self.alloc, self.failing_sinks.as_slice(), name) {
            Ok(failing) => failing,
            Err(NoMemory) => return Opened::NoMemory,
        };
        let place = match ask(
            self.alloc,
            &mut self.calls,
            What::Sink,
            Some(name),
            failed,
            Some(end),
        ) {
            Ok(place) => place,
            Err(NoMemory) => return Opened::NoMemory,
        };
        if failed {
            self.open_faults = self.open_faults.saturating_add(1);
            return Opened::Failed;
        }
        Opened::Got(MemSink::make(self.alloc, failing).placed(place))
    }

    fn open_answers(&mut self, path: Option<&str>) -> Opened<MemAnswerer>
        ensures counted { self.old.open_faults ≤ self.new.open_faults }
        ensures failed { OpenFaults result self.old.open_faults self.new.open_faults }
        ensures fresh { IfGot result (λ s. (s.faults ≡ 0) × (s.answers ≡ [])) }
        ensures placed { IfGot result (λ s. s.place ≡ length self.new.calls) }
        ensures gives { IfGot result (λ s. s ≡ record { faults = 0; place = length self.new.calls; tells = true; answers = []; failing = self.old.failing_answers; made = 0 }) }
        ensures fails { IfOpened result (opening_failed result ≡ is_named self.old.failing_opens self.new.opened) }
        ensures after { self.new ≡ record self.old { calls = calls_with_opening result What.Answers (option_map (λ p. p.now) path.entry) None self.old.calls; opened = one_more self.old.opened; open_faults = (if opening_failed result then one_more self.old.open_faults else self.old.open_faults) } }
    {
        self.opened = self.opened.saturating_add(1);
        let failed = names(&self.failing_opens, self.opened);
        let failing = match copy(self.alloc, self.failing_answers.as_slice()) {
            Ok(failing) => failing,
            Err(NoMemory) => return Opened::NoMemory,
        };
        let place = match ask(
            self.alloc,
            &mut self.calls,
            What::Answers,
            path,
            failed,
            None,
        ) {
            Ok(place) => place,
            Err(NoMemory) => return Opened::NoMemory,
        };
        if failed {
            self.open_faults = self.open_faults.saturating_add(1);
            return Opened::Failed;
        }
        Opened::Got(MemAnswerer::make(self.alloc, failing).placed(place))
    }

    fn take_clock(&mut self) -> MemClock
        ensures gives { result ≡ taken_clock self.old.clock }
        ensures after { self.new ≡ record self.old { clock = None; clocks = once_more self.old.clocks } }
    {
        self.clocks = self.clocks.min(1) + 1;
        match self.clock.take() {
            Some(clock) => clock.anew(),
            None => MemClock::make(Sequence::new(self.alloc)),
        }
    }

    fn keep(&mut self, ends: Ends<MemSource, MemSink, MemAnswerer, MemClock>)
        ensures after { self.new ≡ record self.old { keeps = once_more self.old.keeps; kept = Some ends } }
    {
        self.keeps = self.keeps.min(1) + 1;
        self.kept = Some(ends);
    }

    fn keep_input(&mut self, sources: Sources<MemSource>)
        ensures after { self.new ≡ record self.old { input_keeps = once_more self.old.input_keeps; kept_input = Some sources } }
    {
        self.input_keeps = self.input_keeps.min(1) + 1;
        self.kept_input = Some(sources);
    }

    fn keep_load(&mut self, ends: Ends<MemSource, MemSink, MemAnswerer, MemClock>)
        ensures after { self.new ≡ record self.old { load_keeps = once_more self.old.load_keeps; kept_load = Some ends } }
    {
        self.load_keeps = self.load_keeps.min(1) + 1;
        self.kept_load = Some(ends);
    }

    fn print(&mut self, piece: &[u8]) -> Result<(), PrintFailed>
        ensures counted { self.old.printer.faults ≤ self.new.printer.faults }
        ensures failed { OnErr result (Rose self.old.printer.faults self.new.printer.faults) }
        ensures told { IsTrue self.new.printer.tells → IsTrue self.old.printer.tells }
        ensures adds { PrintAdds result piece.now self.old.printer.bytes self.new.printer.bytes }
        ensures fails { IsTrue self.new.printer.tells → is_err result ≡ is_named self.old.printer.failing self.new.printer.made }
        ensures loses { OnOk result (self.new.printer.tells ≡ self.old.printer.tells) }
        ensures nothing { OnErr result (self.new.printer.bytes ≡ self.old.printer.bytes) }
        ensures after { self.new ≡ record self.old { printer = record self.old.printer { faults = (if is_err result then one_more self.old.printer.faults else self.old.printer.faults); tells = self.new.printer.tells; bytes = self.new.printer.bytes; made = one_more self.old.printer.made } } }
    {
        self.printer.print(piece)
    }

    fn err(&mut self, line: &[u8])
        ensures told { IsTrue self.new.tells_lines → IsTrue self.old.tells_lines }
        ensures adds { IsTrue self.new.tells_lines → self.new.lines ≡ self.old.lines ++ line.now ∷ [] }
        ensures after { self.new ≡ record self.old { lines = self.new.lines; tells_lines = self.new.tells_lines } }
    {
        match Blob::make(self.alloc, line) {
            Ok(line) => {
                if self.lines.push(line).is_err() {
                    self.lost_lines = true;
                }
            }
            Err(NoMemory) => self.lost_lines = true,
        }
    }
}
