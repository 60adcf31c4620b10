//! The command `blobl`.
ghost use Rattle.std.specs.Prelude.{◌≡◌, ℕ, ◌+◌, ◌≤◌, List, [], ◌∷◌, ◌++◌, length, None, IfOk, IfErr, IfSome, MatchOption, OnOk, IsTrue, map};
ghost use Rattle.bt_commands.specs.Inputs.{Standing};
ghost use Rattle.bt_tree.specs.declared.tree.Mapping.{Mapping};
ghost use Rattle.bt_blobl.specs.Inside.{IsFreshInput, IsNoOpening, IsUnread, OpensInput, OpensNone, IsWithin, LintsSay, MappingSays, PatternsSay, RefusalSays, TokensSay, lexer_halt, parser_halt};
ghost use Rattle.bt_blobl.specs.Promise.{BloblCounts, BloblPromise, BloblTells, HaltCounts, blobl_lines, blobl_status, halt_lines, halt_status, pass_status, stop_lines};
ghost use Rattle.bt_blobl.specs.Text.{HasNoLints, RunsAs, TextSays, lint_line};
ghost use Rattle.bt_literals.specs.Literals.{AllRead, patterns};
ghost use Rattle.bt_lexer.specs.Lines.{HasTokens};
ghost use Rattle.bt_commands.specs.Calls.{source_opening};
ghost use Rattle.bt_commands.specs.Outside.{SaysOnly, StillTold, over};

use crate::course::{Flags, Halt, MappingFault, Pass, PassStop};
use crate::faults::{fault_line, line_at};
use crate::lines::map_lines;
use bt_commands::input::LineInput;
use bt_commands::limits::INPUT_BOUND;
use bt_commands::lines::{bound_line, long_line};
use bt_commands::status::Status;
use bt_lexer::{LexFault, Tokens, lex, place, spans_rise};
use bt_lints::{MapLint, Use, lint_mapping};
use bt_literals::{PatternFault, ready};
use bt_ports::NoMemory;
use bt_ports::outside::{Answerer, Clock, Sink, Source};
use bt_ports::parts::{Named, Opened};
use bt_ports::sequence::Sequence;
use bt_ports::world::World;
use bt_ready::Ready;
use bt_syntax::{SyntaxFault, parse};
use bt_tree::Mapping;
use std::alloc::Global;

// Why a text without tokens is no mapping.
fn lexer_halt(fault: LexFault) -> Halt
    ensures { result ≡ lexer_halt fault }
{
    match fault {
        LexFault::Char { at } => Halt::Faulty {
            fault: MappingFault::Character,
            at,
        },
        LexFault::Text { at } => Halt::Faulty {
            fault: MappingFault::Text,
            at,
        },
        LexFault::Number { at } => Halt::Faulty {
            fault: MappingFault::Number,
            at,
        },
        LexFault::NoMemory => Halt::NoMemory,
    }
}

// Why the grammar refuses a text's tokens.
fn parser_halt(fault: SyntaxFault) -> Halt
    ensures { result ≡ parser_halt fault }
{
    match fault {
        SyntaxFault::Syntax { at } => Halt::Faulty {
            fault: MappingFault::Syntax,
            at,
        },
        SyntaxFault::TooDeep { at } => Halt::Faulty {
            fault: MappingFault::TooDeep,
            at,
        },
        SyntaxFault::NoMemory => Halt::NoMemory,
    }
}

// The mapping with its patterns, or the first that isn't read.
fn with_patterns(alloc: Global, mapping: Mapping) -> Result<Ready, Halt>
    ensures kept { IfOk result (λ r. r.mapping ≡ mapping) }
    ensures read { IfOk result (λ r. AllRead (patterns mapping)) }
    ensures says { IfErr result (PatternsSay mapping) }
{
    match ready(alloc, mapping) {
        Ok(ready) => Ok(ready),
        Err((PatternFault::Bad { at }, _)) => Err(Halt::Pattern { at }),
        Err((PatternFault::NoMemory, _)) => Err(Halt::NoMemory),
    }
}

// The lints of a mapping, where it has any.
fn lint_halt(alloc: Global, mapping: &Mapping) -> Option<Halt>
    ensures { MatchOption result (HasNoLints mapping.now) (LintsSay mapping.now) }
{
    match lint_mapping(alloc, mapping, Use::Mapping) {
        Ok(lints) if lints.len() == 0 => None,
        Ok(lints) => Some(Halt::Lints(lints)),
        Err(NoMemory) => Some(Halt::NoMemory),
    }
}

// The mapping made ready, or what is wrong with it.
fn made_ready(alloc: Global, mapping: Mapping) -> Result<Ready, Halt>
    ensures kept { IfOk result (λ r. r.mapping ≡ mapping) }
    ensures no_lints { IfOk result (λ r. HasNoLints mapping) }
    ensures read { IfOk result (λ r. AllRead (patterns mapping)) }
    ensures says { IfErr result (MappingSays mapping) }
{
    match lint_halt(alloc, &mapping) {
        Some(halt) => Err(halt),
        None => with_patterns(alloc, mapping),
    }
}

// The mapping of which these are the text's tokens, or why there is none that runs.
fn read_tokens(alloc: Global, text: &str, tokens: &Tokens) -> Result<Ready, Halt>
    requires { HasTokens text.now tokens.now.list }
    ensures runs { IfOk result (λ r. RunsAs text.now r.mapping) }
    ensures says { IfErr result (λ halt. TokensSay halt text.now) }
{
    spans_rise();
    match parse(alloc, text, tokens) {
        Ok(mapping) => made_ready(alloc, mapping),
        Err(fault) => Err(parser_halt(fault)),
    }
}

// The mapping of the text, or why there is none that runs.
fn read_mapping(alloc: Global, text: &str) -> Result<Ready, Halt>
    ensures runs { IfOk result (λ r. RunsAs text.now r.mapping) }
    ensures unread { IfErr result IsUnread }
    ensures says { IfErr result (λ halt. RefusalSays halt text.now) }
    ensures within { IfErr result (λ halt. IsWithin halt text.now) }
{
    match lex(alloc, text) {
        Ok(tokens) => read_tokens(alloc, text, &tokens),
        Err(fault) => Err(lexer_halt(fault)),
    }
}

// Opens the standard input.
fn open_stdin<W: World>(world: &mut W) -> Result<W::S, Halt>
    ensures told { StillTold ⟦<W as World>⟧ world.old world.new }
    ensures steady { (W.file_faults world.new ≡ W.file_faults world.old) × (W.print_faults world.new ≡ W.print_faults world.old) }
    ensures counted { W.open_faults world.old ≤ W.open_faults world.new }
    ensures halt { IfErr result IsNoOpening }
    ensures failed { IfErr result (λ halt. HaltCounts halt (W.open_faults world.old) (W.open_faults world.new)) }
    ensures fresh { IfOk result (λ source. (W.S.faults source ≡ 0) × (IsTrue (W.S.tells source) → W.S.taken source ≡ 0)) }
    ensures opens { IsTrue (W.tells world.new) → OnOk result (W.tale world.new ≡ record (W.tale world.old) { calls = (W.tale world.old).calls ++ source_opening ∷ []; stdin = (W.tale world.new).stdin }) }
    ensures placed { IsTrue (W.tells world.new) → IfOk result (λ source. W.S.place source ≡ length (W.tale world.old).calls + 1) }
    ensures bytes { IsTrue (W.tells world.new) → IfOk result (λ source. IsTrue (W.S.tells source) → W.S.bytes source ≡ (W.tale world.old).stdin) }
    ensures none { IsTrue (W.tells world.new) → IfErr result (λ halt. OpensNone halt (W.tale world.old) (W.tale world.new)) }
{
    match world.open_source("stdin") {
        Opened::Got(source) => Ok(source),
        Opened::Failed => Err(Halt::NoSource),
        Opened::NoMemory => Err(Halt::NoMemory),
    }
}

// An intake of the lines of the source.
fn lines_of<S: Source>(alloc: Global, source: S) -> Result<LineInput<S>, NoMemory>
    requires { IsTrue (S.tells source) → S.taken source ≡ 0 }
    ensures { IfOk result (λ i. (i.sources.list ≡ record { path = None; source = source } ∷ []) × (i.bound ≡ INPUT_BOUND) × (i.given ≡ 0) × (i.stopped ≡ None)) }
{
    let mut sources = Sequence::new(alloc);
    sources.push(Named { path: None, source })?;
    Ok(LineInput::make(alloc, sources, INPUT_BOUND)?)
}

// Opens the standard input as an intake of lines.
fn open_lines<W: World>(alloc: Global, world: &mut W) -> Result<LineInput<W::S>, Halt>
    ensures told { StillTold ⟦<W as World>⟧ world.old world.new }
    ensures steady { (W.file_faults world.new ≡ W.file_faults world.old) × (W.print_faults world.new ≡ W.print_faults world.old) }
    ensures counted { W.open_faults world.old ≤ W.open_faults world.new }
    ensures halt { IfErr result IsNoOpening }
    ensures failed { IfErr result (λ halt. HaltCounts halt (W.open_faults world.old) (W.open_faults world.new)) }
    ensures fresh { IfOk result (IsFreshInput ⟦<W::S as Source>⟧) }
    ensures opens { IsTrue (W.tells world.new) → IfOk result (λ i. OpensInput ⟦<W::S as Source>⟧ i (W.tale world.old) (W.tale world.new)) }
    ensures none { IsTrue (W.tells world.new) → IfErr result (λ halt. OpensNone halt (W.tale world.old) (W.tale world.new)) }
{
    let source = open_stdin(world)?;
    match lines_of(alloc, source) {
        Ok(intake) => Ok(intake),
        Err(NoMemory) => Err(Halt::NoMemory),
    }
}

// Maps the lines of the standard input.
fn map_stdin<W: World>(
    alloc: Global,
    ready: &Ready,
    flags: Flags,
    world: &mut W,
) -> Result<Pass, Halt>
    ensures told { StillTold ⟦<W as World>⟧ world.old world.new }
    ensures halt { IfErr result IsNoOpening }
    ensures files { W.file_faults world.new ≡ W.file_faults world.old }
    ensures count { BloblCounts result (W.open_faults world.old) (W.open_faults world.new) (W.print_faults world.old) (W.print_faults world.new) }
    ensures went { IsTrue (W.tells world.new) → (text : List ℕ) → RunsAs text ready.now.mapping → BloblTells ⟦<W::S as Source>⟧ text flags result [] (W.tells_printed world.new) (W.tells_lines world.new) (W.tale world.old) (W.tale world.new) }
{
    let mut intake = match open_lines(alloc, world) {
        Ok(intake) => intake,
        Err(halt) => return Err(halt),
    };
    let pass = map_lines(alloc, ready, flags, &mut intake, world);
    world.keep_input(intake.into_sources());
    Ok(pass)
}

// Maps the lines of the standard input by the mapping of the text, or says what kept it from that.
fn map_by<W: World>(alloc: Global, text: &str, flags: Flags, world: &mut W) -> Result<Pass, Halt>
    ensures told { StillTold ⟦<W as World>⟧ world.old world.new }
    ensures says { TextSays result text.now }
    ensures within { IfErr result (λ halt. IsWithin halt text.now) }
    ensures files { W.file_faults world.new ≡ W.file_faults world.old }
    ensures count { BloblCounts result (W.open_faults world.old) (W.open_faults world.new) (W.print_faults world.old) (W.print_faults world.new) }
    ensures went { IsTrue (W.tells world.new) → BloblTells ⟦<W::S as Source>⟧ text.now flags result [] (W.tells_printed world.new) (W.tells_lines world.new) (W.tale world.old) (W.tale world.new) }
{
    match read_mapping(alloc, text) {
        Ok(ready) => map_stdin(alloc, &ready, flags, world),
        Err(halt) => Err(halt),
    }
}

// Says why no more lines are mapped, where it isn't the input's end.
fn say_stop<W: World>(stop: PassStop, world: &mut W)
    ensures { SaysOnly ⟦<W as World>⟧ (stop_lines stop) world.old world.new }
{
    match stop {
        PassStop::Ended => {}
        PassStop::ReadFault => world.err(b"source: read fault"),
        PassStop::LongLine(n) => world.err(long_line(n).as_str().as_bytes()),
        PassStop::Bound => world.err(bound_line(INPUT_BOUND).as_str().as_bytes()),
        PassStop::PrintFailed => world.err(b"out: write fault"),
        PassStop::NoMemory => world.err(b"no memory"),
    }
}

// Says a lint.
fn say_lint<W: World>(lint: &MapLint, text: &str, world: &mut W)
    ensures { SaysOnly ⟦<W as World>⟧ (lint_line text.now lint.now ∷ []) world.old world.new }
{
    world.err(line_at(lint.kind.text(), text, lint.at).as_str().as_bytes());
}

// Says lints, one after another.
fn say_lints<W: World>(lints: &[MapLint], text: &str, world: &mut W)
    ensures { SaysOnly ⟦<W as World>⟧ (map (lint_line text.now) lints.now) world.old world.new }
{
    for lint in lints {
        say_lint(lint, text, world);
    }
}

// Says what kept the command from mapping lines.
fn say_halt<W: World>(halt: &Halt, text: &str, world: &mut W)
    requires { IsWithin halt.now text.now }
    ensures { SaysOnly ⟦<W as World>⟧ (halt_lines halt.now text.now) world.old world.new }
{
    match halt {
        Halt::Faulty { fault, at } => {
            world.err(fault_line(*fault, &place(text, *at)).as_str().as_bytes())
        }
        Halt::Lints(lints) => say_lints(lints.as_slice(), text, world),
        Halt::Pattern { at } => world.err(line_at("pattern", text, *at).as_str().as_bytes()),
        Halt::NoSource => world.err(b"source stdin: cannot open"),
        Halt::NoMemory => world.err(b"no memory"),
    }
}

// Says the line of the command's own fault, where it has one.
fn say_end<W: World>(pass: &Result<Pass, Halt>, text: &str, world: &mut W)
    requires { IfErr pass.now (λ halt. IsWithin halt text.now) }
    ensures { SaysOnly ⟦<W as World>⟧ (blobl_lines pass.now text.now) world.old world.new }
{
    match pass {
        Ok(pass) => say_stop(pass.stop, world),
        Err(halt) => say_halt(halt, text, world),
    }
}

// The status where lines were mapped.
fn pass_status(pass: &Pass) -> Status
    ensures { result ≡ pass_status pass.now.stop pass.now.failed }
{
    match pass.stop {
        PassStop::Ended if pass.failed => Status::Refused,
        PassStop::Ended => Status::Done,
        PassStop::ReadFault => Status::Input,
        PassStop::LongLine(_) | PassStop::Bound => Status::Bound,
        PassStop::PrintFailed => Status::Output,
        PassStop::NoMemory => Status::Memory,
    }
}

// The status where no line was mapped.
fn halt_status(halt: &Halt) -> Status
    ensures { result ≡ halt_status halt.now }
{
    match halt {
        Halt::Faulty { .. } | Halt::Lints(_) | Halt::Pattern { .. } => Status::Config,
        Halt::NoSource => Status::Input,
        Halt::NoMemory => Status::Memory,
    }
}

// The status of the command.
fn blobl_status(pass: &Result<Pass, Halt>) -> Status
    ensures { result ≡ blobl_status pass.now }
{
    match pass {
        Ok(pass) => pass_status(pass),
        Err(halt) => halt_status(halt),
    }
}

/// Maps each line of the standard input by `mapping`, and prints what it gives, with a line break.
///
/// The mapping is read first. Its first fault, or all its lints, or its first pattern that isn't read, is said with its
/// line and column; only a mapping that runs opens the source. A line is a message of its own, without metadata, in a
/// batch of one at moment 0. One that is no JSON text of a value fails, whatever the mapping is, unless lines are taken
/// `raw`. The mapping's failure of a line is said with the line's number, and the lines go on; a failed print ends the
/// command. With `pretty` a result that is a list or an object as JSON is laid out over several lines. The source is
/// handed to `keep_input` where it was read. Not promised: what a real stream holds, and how long a read waits.
pub fn blobl_command<W: World>(
    alloc: Global,
    mapping: &str,
    raw: bool,
    pretty: bool,
    world: &mut W,
) -> Status
    ensures { BloblPromise (over ⟦<W as World>⟧ ⟦<W::S as Source>⟧ ⟦<W::K as Sink>⟧ ⟦<W::A as Answerer>⟧ ⟦<W::C as Clock>⟧) mapping.now (record { raw = raw; pretty = pretty }) result world.old world.new }
{
    let pass = map_by(alloc, mapping, Flags { raw, pretty }, world);
    say_end(&pass, mapping, world);
    blobl_status(&pass)
}
