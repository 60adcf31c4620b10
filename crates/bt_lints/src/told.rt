//! How lints are told.

ghost use Rattle.std.specs.Prelude.{◌≡◌, ◌++◌, ◌≤◌, decimal, length, IfOk, OnOk};
ghost use Rattle.bt_lints.specs.Told as spec;

use crate::lint::MapLintKind;
use bt_lexer::Place;
use bt_ports::NoMemory;
use bt_ports::text::Text;
use itoa::Buffer;
use std::alloc::Global;

impl MapLintKind {
    /// What is said of a lint of this kind.
    pub fn text(self) -> &'static str
        ensures text { result.now ≡ spec.kind_text self }
        ensures short { length result.now ≤ 16 }
    {
        match self {
            MapLintKind::UnknownFunction => "unknown function",
            MapLintKind::UnknownMethod => "unknown method",
            MapLintKind::WrongArguments => "wrong arguments",
            MapLintKind::UnknownVariable => "unknown variable",
            MapLintKind::UnknownMap => "unknown map",
            MapLintKind::MapCycle => "map cycle",
            MapLintKind::DuplicateMap => "duplicate map",
            MapLintKind::RootInCheck => "root in a check",
        }
    }
}

fn push_number(out: &mut Text, n: u64) -> Result<(), NoMemory>
    ensures { OnOk result (out.new ≡ out.old ++ decimal n) }
{
    let mut digits = Buffer::new();
    out.push_str(digits.format(n))
}

/// `TEXT at line L column C`, as lints and faults of mappings are printed.
pub fn told_at(alloc: Global, text: &str, place: &Place) -> Result<Text, NoMemory>
    ensures { IfOk result (λ told. told ≡ spec.told_at text.now place.now.line place.now.column) }
{
    let mut told = Text::make(alloc, text)?;
    told.push_str(" at line ")?;
    push_number(&mut told, place.line)?;
    told.push_str(" column ")?;
    push_number(&mut told, place.column)?;
    Ok(told)
}
