//! What is wrong with a text, in words.
ghost use Rattle.std.specs.Prelude.{◌≡◌, ◌++◌, IfOk, OnOk, decimal};
ghost use Rattle.bt_lexer.specs.Places.{line_of, column_of};
ghost use Rattle.bt_mapping_text.specs.Faults.{printed, words_of};

use crate::fault::{FaultKind, TextFault};
use bt_lexer::{Place, place};
use bt_ports::NoMemory;
use bt_ports::text::Text;
use itoa::Buffer;
use std::alloc::Global;

/// The words, and the line and the column of the byte at `at` or of the text's end, if that comes
/// first: `WORDS at line L column C`.
#[tactic(auto, unfolding(crate::specs::Faults::printed))]
pub fn print_at(alloc: Global, words: &str, text: &str, at: usize) -> Result<Text, NoMemory>
    ensures { IfOk result (λ t. t ≡ printed words.now text.now at) }
{
    let here = place_of(text, at);
    let mut out = Text::make(alloc, words)?;
    out.push_str(" at line ")?;
    push_number(&mut out, here.line)?;
    out.push_str(" column ")?;
    push_number(&mut out, here.column)?;
    Ok(out)
}

/// The fault of a text in words, with its line and its column.
pub fn print_fault(alloc: Global, text: &str, fault: &TextFault) -> Result<Text, NoMemory>
    ensures { IfOk result (λ t. t ≡ printed (words_of fault.now.kind) text.now fault.now.at) }
{
    print_at(alloc, words_of(fault.kind), text, fault.at)
}

fn words_of(kind: FaultKind) -> &'static str
    ensures { result.now ≡ words_of kind }
{
    match kind {
        FaultKind::Character => "character",
        FaultKind::Text => "text",
        FaultKind::Number => "number",
        FaultKind::Syntax => "syntax",
        FaultKind::TooDeep => "too deep",
    }
}

// The line and the column of the byte at `at`, or of the text's end.
#[tactic(auto, using(std::proofs::lemmas::List::take_min))]
fn place_of(text: &str, at: usize) -> Place
    ensures line { result.line ≡ line_of text.now at }
    ensures column { result.column ≡ column_of text.now at }
{
    place(text, at.min(text.len()))
}

fn push_number(out: &mut Text, n: u64) -> Result<(), NoMemory>
    ensures { OnOk result (out.new ≡ out.old ++ decimal n) }
{
    let mut digits = Buffer::new();
    out.push_str(digits.format(n))
}
