//! The output of a configuration.
ghost use Rattle.std.specs.Prelude.{◌≡◌, ◌++◌, [], IfErr, IfOk, OnOk, Some, codes, false, length, map};
ghost use Rattle.std.specs.Option.{option_copied};
ghost use Rattle.bt_schema.specs.Pointer as pointers;
ghost use Rattle.bt_making.specs.Sources.{AreMade, AreRefused};
ghost use Rattle.bt_outputs.specs.Numbers as counts;
ghost use Rattle.bt_value.specs.declared.val.Val.{out-Val};
ghost use Rattle.bt_output_plan.specs.Compiled as spec;
ghost use Rattle.bt_output_plan.specs.Compiled.{IsOutputOf};
ghost use Rattle.bt_output_plan.specs.Made.{blanked, parts};
ghost use Rattle.bt_output_plan.specs.Numbered.{next_of};
ghost use Rattle.bt_output_plan.specs.Sinks.{with_ends};

use crate::numbers::{Numbers, leaf};
use crate::outputs::output;
use crate::sinks::{Sinks, push_end, push_output};
use bt_demand::routes::HoldPolicies;
use bt_making::Refusal;
use bt_outputs::Output;
use bt_ports::NoMemory;
use bt_ports::blob::Blob;
use bt_ports::sequence::Sequence;
use bt_ports::text::Text;
use bt_schema::under;
use bt_value::Val;
use std::alloc::Global;

/// The names of sinks, by their numbers.
pub type Names = Sequence<Text>;

/// The closing bytes of sinks, by their numbers.
pub type Ends = Sequence<Blob>;

/// An output, made ready and numbered.
#[derive(Drop)]
pub struct OutputPlan {
    /// What it asks of messages.
    pub output: Output,
    /// The names of its sinks, in order of their first leaf.
    pub sinks: Names,
    /// The bytes that each sink writes after a message.
    pub ends: Ends,
    /// When each hold is released.
    pub holds: HoldPolicies,
    /// How many leaves there are, where each copy of a `retry` has its own.
    pub leaves: u32,
}

// The output of a configuration, where it has one.
fn output_in(config: &Val) -> Option<&Val>
    ensures { spec.draft_of (option_copied result) ≡ spec.draft_in (out-Val config.now) }
{
    match config {
        Val::Obj(fields) => fields.find("output"),
        _ => None,
    }
}

fn push_sinks(alloc: Global, found: Option<&Val>, sinks: &mut Sinks) -> Result<(), NoMemory>
    ensures { OnOk result (sinks.new.items ≡ with_ends sinks.old.items (spec.draft_of (option_copied found.entry)).ends) }
{
    match found {
        Some(v) => push_output(alloc, v, sinks),
        None => push_end(alloc, Text::make(alloc, "stdout")?, "\n", sinks),
    }
}

fn names_of(alloc: Global, sinks: &[(Text, Blob)]) -> Result<Names, NoMemory>
    ensures { IfOk result (λ ns. ns.list ≡ map (λ e. e.0) sinks.now) }
{
    let mut names = Names::new(alloc);
    for sink in sinks {
        names.push(Text::make(alloc, sink.0.as_str())?)?;
    }
    Ok(names)
}

fn ends_of(alloc: Global, sinks: &[(Text, Blob)]) -> Result<Ends, NoMemory>
    ensures { IfOk result (λ es. es.list ≡ map (λ e. e.1) sinks.now) }
{
    let mut ends = Ends::new(alloc);
    for sink in sinks {
        ends.push(Blob::make(alloc, sink.1.as_slice())?)?;
    }
    Ok(ends)
}

fn outputs_of(
    alloc: Global,
    found: Option<&Val>,
    names: &[Text],
    numbers: &mut Numbers,
) -> Result<Output, Refusal>
    ensures form { IfOk result (λ o. blanked o ≡ ((spec.draft_of (option_copied found.entry)).outline names.now false).form) }
    ensures made { IfOk result (λ o. AreMade (((spec.draft_of (option_copied found.entry)).outline names.now false).texts (pointers.under [] (codes "output"))) (parts o)) }
    ensures refused { IfErr result (AreRefused (((spec.draft_of (option_copied found.entry)).outline names.now false).texts (pointers.under [] (codes "output")))) }
    ensures numbered { IfOk result (λ o. counts.numbers (length names.now) o (next_of numbers.old) ≡ Some (next_of numbers.new)) }
    ensures holds { OnOk result (numbers.new.holds.list ≡ numbers.old.holds.list ++ (spec.draft_of (option_copied found.entry)).holds false) }
{
    match found {
        Some(v) => {
            let here = under(alloc, "", "output")?;
            output(alloc, v, here.as_str(), names, false, numbers)
        }
        None => Ok(leaf(names, "stdout", numbers)?),
    }
}

/// The output of a configuration, with each text of it made ready once, and its leaves, holds and sinks numbered.
///
/// A field that is absent, or that has a lint, reads as its default.
pub fn make_output(alloc: Global, config: &Val) -> Result<OutputPlan, Refusal>
    ensures made { IfOk result (IsOutputOf config.now) }
    ensures refused { IfErr result (AreRefused ((spec.outline config.now).texts [])) }
{
    let found = output_in(config);
    let mut list = Vec::new(alloc);
    push_sinks(alloc, found, &mut list)?;
    let sinks = names_of(alloc, list.as_slice())?;
    let ends = ends_of(alloc, list.as_slice())?;
    let mut numbers = Numbers {
        leaf: 0,
        holds: HoldPolicies::new(alloc),
    };
    let output = outputs_of(alloc, found, sinks.as_slice(), &mut numbers)?;
    let Numbers { leaf, holds } = numbers;
    Ok(OutputPlan {
        output,
        sinks,
        ends,
        holds,
        leaves: leaf,
    })
}
