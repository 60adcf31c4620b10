//! What becomes of one line.
ghost use Rattle.std.specs.Prelude.{◌≡◌, ◌≤◌, ◌++◌, ◌∷◌, [], None, false, IfOk, IfErr, OnOk, IsTrue, codes, decimal, length};
ghost use Rattle.bt_meaning.specs.Contents.{document, this_fault};
ghost use Rattle.bt_meaning.specs.Mapped.{mapped};
ghost use Rattle.bt_ports.specs.Faults.{Rose};
ghost use Rattle.bt_value.specs.Plain.{has_bytes};
ghost use Rattle.bt_blobl.specs.Meaning as spec;
ghost use Rattle.bt_blobl.specs.Meaning.{task_of};
ghost use Rattle.bt_commands.specs.Outside.{SameCounts, StillTold};
ghost use Rattle.bt_blobl.specs.Inside.{LineShown, PrintsOnly};
ghost use Rattle.bt_blobl.specs.declared.course.PassStop.{PassStop};

use crate::course::{Flags, LineResult, PassStop};
use bt_mappings::{Mapped, Spot, document, run_mapping, run_on_document, this_failure};
use bt_ports::NoMemory;
use bt_ports::blob::Blob;
use bt_ports::parts::{Items, PrintFailed};
use bt_ports::text::Text;
use bt_ports::world::World;
use bt_ready::Ready;
use bt_value::{Fields, Msg, Val, write_pretty};
use std::alloc::Global;

/// The bytes of a batch of one line.
fn line_bytes(alloc: Global, items: Items) -> Blob
    requires { length items.list ≡ 1 }
    ensures { result ≡ spec.line_bytes items.list }
{
    let mut items = items;
    match items.pop() {
        Some(item) => item.bytes,
        None => Blob::new(alloc),
    }
}

// A document of this content, laid out over several lines where it is a list or an object.
#[tactic(auto, unfolding(crate::specs::Meaning::laid_value))]
fn laid_value(alloc: Global, value: &Val, content: Blob) -> Result<Blob, NoMemory>
    requires { has_bytes value.now ≡ false }
    ensures { IfOk result (λ b. b ≡ spec.laid_value value.now content) }
{
    match value {
        Val::Arr(_) | Val::Obj(_) => write_pretty(alloc, value),
        _ => Ok(content),
    }
}

// A content, laid out where it is a list or an object as JSON.
fn laid(alloc: Global, content: Blob) -> Result<Blob, NoMemory>
    ensures { IfOk result (λ b. b ≡ spec.laid (document content) content) }
{
    match document(alloc, content.as_slice())? {
        Ok(value) => laid_value(alloc, &value, content),
        Err(_) => Ok(content),
    }
}

// A result as it is printed.
fn result_text(alloc: Global, pretty: bool, content: Blob) -> Result<Blob, NoMemory>
    ensures { IfOk result (λ b. b ≡ spec.result_text pretty content) }
{
    if pretty {
        laid(alloc, content)
    } else {
        Ok(content)
    }
}

// What a mapping makes of a message, by what is printed of it.
fn shown(alloc: Global, pretty: bool, mapped: Mapped) -> Result<LineResult, NoMemory>
    ensures { IfOk result (λ o. o ≡ spec.shown pretty mapped) }
{
    match mapped {
        Mapped::Changed(msg) => {
            let mut bytes = result_text(alloc, pretty, msg.content)?;
            bytes.push_all(b"\n")?;
            Ok(LineResult::Prints(bytes))
        }
        Mapped::Dropped => Ok(LineResult::Drops),
        Mapped::Flagged(text) => Ok(LineResult::Fails(text)),
    }
}

// The place of the only message of a batch, at moment 0.
fn alone() -> Spot
    ensures { result ≡ spec.alone }
{
    Spot {
        index: 0,
        size: 1,
        moment: 0,
    }
}

// What becomes of a line, as a message, where it need be no document.
fn raw_outcome(
    alloc: Global,
    ready: &Ready,
    flags: Flags,
    msg: &Msg,
) -> Result<LineResult, NoMemory>
    ensures { IfOk result (λ o. o ≡ spec.shown flags.pretty (mapped ready.now.mapping msg.now None spec.alone)) }
{
    shown(
        alloc,
        flags.pretty,
        run_mapping(alloc, ready, msg, None, alone())?,
    )
}

// What becomes of a line, as a message, which must be a document.
fn document_outcome(
    alloc: Global,
    ready: &Ready,
    flags: Flags,
    msg: &Msg,
) -> Result<LineResult, NoMemory>
    requires { msg.now ≡ spec.message msg.now.content }
    ensures { IfOk result (λ o. o ≡ spec.outcome_by (this_fault msg.now.content) (task_of ready.now.mapping flags) msg.now.content) }
{
    match document(alloc, msg.content.as_slice())? {
        Ok(value) => {
            let mapped = run_on_document(alloc, ready, msg, &value, None, alone())?;
            shown(alloc, flags.pretty, mapped)
        }
        Err(fault) => Ok(LineResult::Fails(Text::make(alloc, this_failure(fault))?)),
    }
}

/// What becomes of a line.
fn outcome(alloc: Global, ready: &Ready, flags: Flags, line: Blob) -> Result<LineResult, NoMemory>
    ensures { IfOk result (λ o. o ≡ spec.outcome (task_of ready.now.mapping flags) line) }
{
    let msg = Msg {
        content: line,
        meta: Fields::new(alloc),
        flag: None,
    };
    if flags.raw {
        raw_outcome(alloc, ready, flags, &msg)
    } else {
        document_outcome(alloc, ready, flags, &msg)
    }
}

// Says that the mapping of the n-th line failed.
fn say_failure<W: World>(alloc: Global, n: u64, text: &Text, world: &mut W) -> Result<(), NoMemory>
    ensures told { StillTold ⟦<W as World>⟧ world.old world.new }
    ensures steady { SameCounts ⟦<W as World>⟧ world.old world.new }
    ensures same { IsTrue (W.tells world.new) → W.tale world.new ≡ record (W.tale world.old) { lines = (W.tale world.new).lines } }
    ensures ok { IsTrue (W.tells_lines world.new) → OnOk result ((W.tale world.new).lines ≡ (W.tale world.old).lines ++ (codes "line " ++ decimal n ++ codes ": " ++ text.now) ∷ []) }
    ensures err { IfErr result (λ _. W.tale world.new ≡ W.tale world.old) }
{
    let text = text.as_str();
    match format!(in alloc; "line {n}: {text}") {
        Ok(line) => {
            world.err(line.as_bytes());
            Ok(())
        }
        Err(_) => Err(NoMemory),
    }
}

// Prints or says the outcome of the n-th line, and gives whether its mapping failed.
fn tell<W: World>(
    alloc: Global,
    n: u64,
    outcome: LineResult,
    world: &mut W,
) -> Result<bool, PassStop>
    ensures told { StillTold ⟦<W as World>⟧ world.old world.new }
    ensures steady { (W.file_faults world.new ≡ W.file_faults world.old) × (W.open_faults world.new ≡ W.open_faults world.old) }
    ensures counted { OnOk result (W.print_faults world.new ≡ W.print_faults world.old) }
    ensures failed { IfErr result (λ stop. stop ≡ PassStop.PrintFailed → Rose (W.print_faults world.old) (W.print_faults world.new)) }
    ensures only { IsTrue (W.tells world.new) → PrintsOnly (W.tale world.old) (W.tale world.new) }
    ensures ends { LineShown result n outcome (W.tells world.new) (W.tells_printed world.new) (W.tells_lines world.new) (W.tale world.old) (W.tale world.new) }
{
    match outcome {
        LineResult::Prints(bytes) => match world.print(bytes.as_slice()) {
            Ok(()) => Ok(false),
            Err(PrintFailed) => Err(PassStop::PrintFailed),
        },
        LineResult::Drops => Ok(false),
        LineResult::Fails(text) => match say_failure(alloc, n, &text, world) {
            Ok(()) => Ok(true),
            Err(NoMemory) => Err(PassStop::NoMemory),
        },
    }
}

/// Maps the n-th line, which is a batch of its own, and gives whether its mapping failed.
pub(crate) fn map_line<W: World>(
    alloc: Global,
    ready: &Ready,
    flags: Flags,
    n: u64,
    items: Items,
    world: &mut W,
) -> Result<bool, PassStop>
    requires { length items.list ≡ 1 }
    ensures told { StillTold ⟦<W as World>⟧ world.old world.new }
    ensures steady { (W.file_faults world.new ≡ W.file_faults world.old) × (W.open_faults world.new ≡ W.open_faults world.old) }
    ensures counted { OnOk result (W.print_faults world.new ≡ W.print_faults world.old) }
    ensures failed { IfErr result (λ stop. stop ≡ PassStop.PrintFailed → Rose (W.print_faults world.old) (W.print_faults world.new)) }
    ensures only { IsTrue (W.tells world.new) → PrintsOnly (W.tale world.old) (W.tale world.new) }
    ensures ends { LineShown result n (spec.outcome (task_of ready.now.mapping flags) (spec.line_bytes items.list)) (W.tells world.new) (W.tells_printed world.new) (W.tells_lines world.new) (W.tale world.old) (W.tale world.new) }
{
    match outcome(alloc, ready, flags, line_bytes(alloc, items)) {
        Ok(outcome) => tell(alloc, n, outcome, world),
        Err(NoMemory) => Err(PassStop::NoMemory),
    }
}
