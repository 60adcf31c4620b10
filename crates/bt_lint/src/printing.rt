//! The printing of lines.
ghost use Rattle.bt_lint.specs.Inside.{PrintsBytes};
ghost use Rattle.bt_lint.specs.Report.{joined};

use bt_ports::blob::Blob;
use bt_ports::parts::PrintFailed;
use bt_ports::world::World;

fn print_line<W: World>(line: &Blob, world: &mut W) -> Result<(), PrintFailed>
    ensures { PrintsBytes ⟦<W as World>⟧ result line.now world.old world.new }
{
    world.print(line.as_slice())
}

/// Prints the lines, each by one call, up to the first that fails.
pub(crate) fn print_lines<W: World>(lines: &[Blob], world: &mut W) -> Result<(), PrintFailed>
    ensures { PrintsBytes ⟦<W as World>⟧ result (joined lines.now) world.old world.new }
{
    for line in lines {
        match print_line(line, world) {
            Ok(()) => {}
            Err(failed) => return Err(failed),
        }
    }
    Ok(())
}
