//! The lines of a mapping's faults.
ghost use Rattle.std.specs.Prelude.{◌≡◌, ◌≤◌, length};
ghost use Rattle.bt_blobl.specs.Text as mapping;

use crate::course::MappingFault;
use bt_commands::lines::{Line, push_number};
use bt_lexer::{Place, place};

// What is said of a mapping's fault.
fn fault_text(fault: MappingFault) -> &'static str
    ensures text { result.now ≡ mapping.fault_text fault }
    ensures short { length result.now ≤ 9 }
{
    match fault {
        MappingFault::Character => "character",
        MappingFault::Text => "text",
        MappingFault::Number => "number",
        MappingFault::Syntax => "syntax",
        MappingFault::TooDeep => "too deep",
    }
}

/// `mapping: TEXT at line L column C`.
pub(crate) fn fault_line(fault: MappingFault, place: &Place) -> Line
    ensures { result.bytes ≡ mapping.fault_line fault place.now.line place.now.column }
{
    placed_line(fault_text(fault), place)
}

/// `mapping: TEXT at line L column C`, of a short text, and of a place in the text of a mapping.
pub(crate) fn line_at(said: &'static str, text: &str, at: usize) -> Line
    requires { length said.now ≤ 20 }
    ensures { result.bytes ≡ mapping.line_at said.now text.now at }
{
    placed_line(said, &place(text, at.min(text.len())))
}

// `mapping: TEXT at line L column C`, of a short text.
fn placed_line(text: &'static str, place: &Place) -> Line
    requires { length text.now ≤ 20 }
    ensures { result.bytes ≡ mapping.placed_line text.now place.now.line place.now.column }
{
    let mut line = Line::new();
    line.push_str("mapping: ");
    line.push_str(text);
    line.push_str(" at line ");
    push_number(&mut line, place.line);
    line.push_str(" column ");
    push_number(&mut line, place.column);
    line
}
