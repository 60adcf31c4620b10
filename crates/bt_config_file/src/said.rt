//! Lints that are said.
ghost use Rattle.std.specs.Prelude.{◌≡◌, ◌++◌, ◌∷◌, [], IfOk, OnOk, map};
ghost use Rattle.bt_commands.specs.Outside.{SaysOnly};
ghost use Rattle.bt_config_file.specs.Inside.{said_of};
ghost use Rattle.bt_schema.specs.Lines.{line};

use bt_config::{Lint, lint_line};
use bt_ports::NoMemory;
use bt_ports::text::Text;
use bt_ports::world::World;
use sqlite_items::Items;
use std::alloc::Global;

fn lines_of(alloc: Global, lints: &[Lint]) -> Result<Items<Text>, NoMemory>
    ensures { IfOk result (λ ls. ls ≡ map line lints.now) }
{
    let mut lines = Items::new(alloc);
    for lint in lints {
        push(&mut lines, lint_line(alloc, lint)?)?;
    }
    Ok(lines)
}

fn push(lines: &mut Items<Text>, line: Text) -> Result<(), NoMemory>
    ensures { OnOk result (lines.new ≡ lines.old ++ line ∷ []) }
{
    match lines.push(line) {
        Ok(()) => Ok(()),
        Err(_) => Err(NoMemory),
    }
}

fn say<W: World>(line: &Text, world: &mut W)
    ensures { SaysOnly ⟦<W as World>⟧ (line.now ∷ []) world.old world.new }
{
    world.err(line.as_str().as_bytes())
}

fn say_lines<W: World>(lines: &[Text], world: &mut W)
    ensures { SaysOnly ⟦<W as World>⟧ lines.now world.old world.new }
{
    for line in lines {
        say(line, world);
    }
}

/// Says the line of each lint, in order. Where memory is wanting it says nothing.
pub fn say_lints<W: World>(alloc: Global, lints: &[Lint], world: &mut W) -> Result<(), NoMemory>
    ensures { SaysOnly ⟦<W as World>⟧ (said_of result lints.now) world.old world.new }
{
    let lines = lines_of(alloc, lints)?;
    say_lines(lines.as_slice(), world);
    Ok(())
}
