//! What is printed of a configuration.
ghost use Rattle.std.specs.Prelude.{◌≡◌, ◌++◌, ◌∷◌, [], IfOk, OnOk, false, map};
ghost use Rattle.bt_config.specs.Migrated.{migrated};
ghost use Rattle.bt_lint.specs.Report as spec;
ghost use Rattle.bt_value.specs.Plain.{has_bytes};
ghost use Rattle.bt_value.specs.Reading.{text};

use bt_config::{Config, Lint, lint_line, migrate};
use bt_config_file::Linted;
use bt_ports::NoMemory;
use bt_ports::blob::Blob;
use bt_value::write_json;
use sqlite_items::Items;
use std::alloc::Global;

/// Lines, each with its line break.
pub(crate) type Lines = Items<Blob>;

/// The lines that are printed of a configuration: those of its lints, or where it has none and
/// `moves` is set the configuration in the words of version 2.
pub(crate) fn lines_of(alloc: Global, linted: &Linted, moves: bool) -> Result<Lines, NoMemory>
    requires { has_bytes linted.now.config.doc ≡ false }
    ensures { IfOk result (λ ls. ls ≡ spec.prints_of moves linted.now.config.doc linted.now.lints) }
{
    if linted.lints.is_empty() {
        moved_lines(alloc, &linted.config, moves)
    } else {
        lint_lines(alloc, linted.lints.as_slice())
    }
}

fn lint_lines(alloc: Global, lints: &[Lint]) -> Result<Lines, NoMemory>
    ensures { IfOk result (λ ls. ls ≡ map spec.lint_print lints.now) }
{
    let mut lines = Items::new(alloc);
    for lint in lints {
        push(&mut lines, lint_print(alloc, lint)?)?;
    }
    Ok(lines)
}

fn lint_print(alloc: Global, lint: &Lint) -> Result<Blob, NoMemory>
    ensures { IfOk result (λ b. b ≡ spec.lint_print lint.now) }
{
    let text = lint_line(alloc, lint)?;
    let mut line = Blob::make(alloc, text.as_str().as_bytes())?;
    line.push_all(b"\n")?;
    Ok(line)
}

fn moved_lines(alloc: Global, config: &Config, moves: bool) -> Result<Lines, NoMemory>
    requires { has_bytes config.now.doc ≡ false }
    ensures { IfOk result (λ ls. ls ≡ spec.prints_of moves config.now.doc []) }
{
    let mut lines = Items::new(alloc);
    if moves {
        push(&mut lines, moved_line(alloc, config)?)?;
    }
    Ok(lines)
}

fn moved_line(alloc: Global, config: &Config) -> Result<Blob, NoMemory>
    requires { has_bytes config.now.doc ≡ false }
    ensures { IfOk result (λ b. b ≡ spec.ended (text (migrated config.now.doc))) }
{
    let moved = migrate(alloc, config)?;
    let mut line = write_json(alloc, &moved.doc)?;
    line.push_all(b"\n")?;
    Ok(line)
}

fn push(lines: &mut Lines, line: Blob) -> Result<(), NoMemory>
    ensures { OnOk result (lines.new ≡ lines.old ++ line ∷ []) }
{
    match lines.push(line) {
        Ok(()) => Ok(()),
        Err(_) => Err(NoMemory),
    }
}
