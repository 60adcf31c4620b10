//! How the input of a configuration is read as lines.
ghost use Rattle.std.specs.Prelude.{◌≡◌};
ghost use Rattle.bt_configured.specs.Lines as spec;

use bt_input_plan::{InputPlan, InputPolicy, Names};
use bt_intake::policy::Policy;
use bt_pipelines::launch::Cuts;
use bt_ports::blob::Blob;

/// Lines of some sources, in batches.
#[derive(Drop)]
pub struct Lines {
    /// The paths of files in their order, or else the standard input.
    pub files: Option<Names>,
    /// How they are cut into lines and batches.
    pub cuts: Cuts,
}

fn lines_by(files: Option<Names>, delimiter: Blob, policy: InputPolicy) -> Option<Lines>
    ensures { result ≡ spec.lines_by files delimiter policy }
{
    let InputPolicy {
        count,
        byte_size,
        check,
    } = policy;
    let length = delimiter.as_slice().len();
    if 1 <= length && length <= 16 {
        let policy = Policy {
            count,
            byte_size,
            check,
        };
        Some(Lines {
            files,
            cuts: Cuts { delimiter, policy },
        })
    } else {
        None
    }
}

/// How an input is read as lines, where it is one that runs: the lines of standard input or of files, whose delimiter has 1
/// to 16 bytes. The others are records of `csv`, and inputs made of others.
pub fn lines_of(input: InputPlan) -> Option<Lines>
    ensures { result ≡ spec.lines_of input }
{
    match input {
        InputPlan::Stdin(delimiter, policy) => lines_by(None, delimiter, policy),
        InputPlan::File(names, delimiter, policy) => lines_by(Some(names), delimiter, policy),
        InputPlan::Csv(..)
        | InputPlan::Sequence(_)
        | InputPlan::Until(..)
        | InputPlan::Regroup(..) => None,
    }
}
