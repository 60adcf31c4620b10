//! Inputs as text.

use crate::show::shown;
use bt_plan::{InputPlan, InputPlans, InputPolicy, Names};
use std::alloc::AllocError;

fn push_policy(all: &mut String, policy: &InputPolicy) -> Result<(), AllocError> {
    write!(all, " {} {}", policy.count, policy.byte_size)?;
    if policy.check.is_some() {
        write!(all, " check")?;
    }
    Ok(())
}

fn push_names(all: &mut String, names: &Names) -> Result<(), AllocError> {
    for name in names.as_slice() {
        write!(all, " {}", name.as_str())?;
    }
    Ok(())
}

fn push_delimiter(all: &mut String, delimiter: &[u8]) -> Result<(), AllocError> {
    if delimiter == b"\n".as_slice() {
        write!(all, " LF")
    } else {
        write!(all, " {}", shown(delimiter))
    }
}

fn push_lines(all: &mut String, delimiter: &[u8], policy: &InputPolicy) -> Result<(), AllocError> {
    push_delimiter(all, delimiter)?;
    push_policy(all, policy)
}

/// Puts an input at the end.
#[cycle(push)]
pub fn push_input(all: &mut String, input: &InputPlan) -> Result<(), AllocError> {
    match input {
        InputPlan::Stdin(delimiter, policy) => {
            write!(all, " (stdin")?;
            push_lines(all, delimiter.as_slice(), policy)?;
            write!(all, ")")
        }
        InputPlan::File(names, delimiter, policy) => {
            write!(all, " (file")?;
            push_names(all, names)?;
            push_lines(all, delimiter.as_slice(), policy)?;
            write!(all, ")")
        }
        InputPlan::Csv(names, comma, header) => {
            write!(all, " (csv")?;
            push_names(all, names)?;
            write!(all, " {comma} {header})")
        }
        InputPlan::Sequence(inputs) => {
            write!(all, " (sequence")?;
            push_inputs(all, inputs)?;
            write!(all, ")")
        }
        InputPlan::Until(child, _) => {
            write!(all, " (until")?;
            push_input(all, child.get())?;
            write!(all, ")")
        }
        InputPlan::Regroup(child, policy) => {
            write!(all, " (regroup")?;
            push_policy(all, policy)?;
            push_input(all, child.get())?;
            write!(all, ")")
        }
    }
}

#[cycle(push)]
fn push_inputs(all: &mut String, inputs: &InputPlans) -> Result<(), AllocError> {
    for input in inputs.as_slice() {
        push_input(all, input)?;
    }
    Ok(())
}
