//! Lints and their lines.
ghost use Rattle.std.specs.Prelude.{◌≡◌, ◌++◌, IfOk, OnOk};
ghost use Rattle.bt_schema.specs.Lines as spec;

use bt_ports::NoMemory;
use bt_ports::text::Text;
use sqlite_items::Items;
use std::alloc::Global;

/// Something wrong in a configuration.
#[derive(Drop)]
pub struct Lint {
    /// Where: the pointer of RFC 6901.
    pub pointer: Text,
    /// What.
    pub kind: LintKind,
}

/// What is wrong.
#[derive(Drop)]
pub enum LintKind {
    /// An object is needed.
    NotObject,
    /// No field has this name.
    UnknownField,
    /// This field isn't there.
    Missing(Text),
    /// A value of another kind is needed.
    WrongType,
    /// A number, a length or a text is outside its limits.
    OutOfRange,
    /// No kind has this name.
    UnknownKind,
    /// A component has no kind or several.
    NotOneKind,
    /// A part of Benthos that this program leaves out.
    NotInProfile,
    /// The printed fault of a mapping.
    Fault(Text),
    /// A printed lint of a mapping.
    MappingLint(Text),
    /// Batching below batching.
    BatchingBelow,
    /// A processor that changes the number of messages, where each has to give one or none.
    ChangesNumber,
    /// Too many sources, leaves or holds.
    TooMany,
    /// `codec` and `scanner` at one input.
    CodecAndScanner,
    /// Two leaves of one sink with different closing bytes.
    TwoCodecs,
}

/// Lints, in their order.
pub type Lints = Items<Lint>;

/// The line of a lint, without a line break: `POINTER: TEXT`.
#[tactic(auto, unfolding(crate::specs::Lines::line))]
pub fn lint_line(alloc: Global, lint: &Lint) -> Result<Text, NoMemory>
    ensures { IfOk result (λ t. t ≡ spec.line lint.now) }
{
    let mut line = Text::make(alloc, lint.pointer.as_str())?;
    line.push_str(": ")?;
    push_kind(&mut line, &lint.kind)?;
    Ok(line)
}

fn push_kind(line: &mut Text, kind: &LintKind) -> Result<(), NoMemory>
    ensures { OnOk result (line.new ≡ line.old ++ spec.text_of kind.now) }
{
    match kind {
        LintKind::NotObject => line.push_str("not an object"),
        LintKind::UnknownField => line.push_str("unknown field"),
        LintKind::Missing(name) => push_missing(line, name.as_str()),
        LintKind::WrongType => line.push_str("wrong type"),
        LintKind::OutOfRange => line.push_str("out of range"),
        LintKind::UnknownKind => line.push_str("unknown kind"),
        LintKind::NotOneKind => line.push_str("not exactly one kind"),
        LintKind::NotInProfile => line.push_str("not in the profile"),
        LintKind::Fault(text) => line.push_str(text.as_str()),
        LintKind::MappingLint(text) => line.push_str(text.as_str()),
        LintKind::BatchingBelow => line.push_str("batching below batching"),
        LintKind::ChangesNumber => line.push_str("changes the number of messages"),
        LintKind::TooMany => line.push_str("too many"),
        LintKind::CodecAndScanner => line.push_str("codec and scanner"),
        LintKind::TwoCodecs => line.push_str("two codecs for one sink"),
    }
}

fn push_missing(line: &mut Text, name: &str) -> Result<(), NoMemory>
    ensures { OnOk result (line.new ≡ line.old ++ spec.missing name.now) }
{
    push_both(line, "missing field ", name)
}

fn push_both(line: &mut Text, first: &str, second: &str) -> Result<(), NoMemory>
    ensures { OnOk result (line.new ≡ line.old ++ (first.now ++ second.now)) }
{
    line.push_str(first)?;
    line.push_str(second)
}
