//! The plan of a configuration.
ghost use Rattle.std.specs.Prelude.{◌≡◌, [], IfErr, IfOk, OnOk, Some, codes, length, not, true};
ghost use Rattle.bt_config.specs.Violations.{AreViolations};
ghost use Rattle.bt_parts.specs.Plans.{stands_well};
ghost use Rattle.bt_input_plan.specs.Compiled.{IsInputOf};
ghost use Rattle.bt_output_plan.specs.Compiled.{IsOutputOf};
ghost use Rattle.bt_outputs.specs.Numbers.{from_start, numbers};
ghost use Rattle.bt_schema.specs.declared.lints.LintKind.TheVariants as lint;
ghost use Rattle.bt_plan.specs.Compiled.{AreProcessorsOf, IsFaultOf, IsOneLint, IsPlanOf};

use crate::fault::CompileFault;
use crate::numbers::{threads, window};
use bt_compile::{ProcsFault, compile_procs};
use bt_config::{Config, lint_config};
use bt_input_plan::{InputPlan, make_input};
use bt_making::Refusal;
use bt_output_plan::{OutputPlan, make_output};
use bt_ports::NoMemory;
use bt_ports::text::Text;
use bt_proc::Procs;
use bt_routing::Plan;
use bt_schema::{Lint, LintKind, Lints};
use bt_value::Val;
use std::alloc::Global;

/// The plan of a configuration, and its input. Each mapping, check and interpolated text is made ready once.
///
/// It needs a configuration without lints, and gives them otherwise. Of one without lints there is one lint where a pattern
/// is refused.
pub fn compile(alloc: Global, config: &Config) -> Result<(Plan, InputPlan), CompileFault>
    ensures without_lints { IfOk result (λ p. AreViolations config.now.doc []) }
    ensures plan { IfOk result (λ p. IsPlanOf config.now.doc p.0) }
    ensures input { IfOk result (λ p. IsInputOf config.now.doc p.1) }
    ensures refused { IfErr result (IsFaultOf config.now.doc) }
{
    let lints = lint_config(alloc, config)?;
    if lints.is_empty() {
        parts_of(alloc, config)
    } else {
        Err(CompileFault::Lints(lints))
    }
}

// The plan of a configuration without lints, and its input.
fn parts_of(alloc: Global, config: &Config) -> Result<(Plan, InputPlan), CompileFault>
    requires { AreViolations config.now.doc [] }
    ensures plan { IfOk result (λ p. IsPlanOf config.now.doc p.0) }
    ensures input { IfOk result (λ p. IsInputOf config.now.doc p.1) }
    ensures refused { IfErr result (IsFaultOf config.now.doc) }
{
    let plan = plan_for(alloc, config)?;
    with_plan(alloc, config, plan)
}

// The plan, with the input beside it.
fn with_plan(alloc: Global, config: &Config, plan: Plan) -> Result<(Plan, InputPlan), CompileFault>
    requires clean { AreViolations config.now.doc [] }
    requires plan { IsPlanOf config.now.doc plan }
    ensures plan { IfOk result (λ p. IsPlanOf config.now.doc p.0) }
    ensures input { IfOk result (λ p. IsInputOf config.now.doc p.1) }
    ensures refused { IfErr result (IsFaultOf config.now.doc) }
{
    match input_of(alloc, config) {
        Ok(input) => Ok((plan, input)),
        Err(fault) => Err(fault),
    }
}

fn plan_for(alloc: Global, config: &Config) -> Result<Plan, CompileFault>
    requires { AreViolations config.now.doc [] }
    ensures plan { IfOk result (IsPlanOf config.now.doc) }
    ensures refused { IfErr result (IsFaultOf config.now.doc) }
{
    let output = output_of(alloc, config)?;
    with_output(alloc, config, output)
}

fn with_output(alloc: Global, config: &Config, output: OutputPlan) -> Result<Plan, CompileFault>
    requires clean { AreViolations config.now.doc [] }
    requires output { IsOutputOf config.now.doc output }
    ensures plan { IfOk result (IsPlanOf config.now.doc) }
    ensures refused { IfErr result (IsFaultOf config.now.doc) }
{
    match procs_of(alloc, config) {
        Ok(procs) => plan_of(alloc, config, procs, output),
        Err(fault) => Err(fault),
    }
}

// The fault of one lint.
fn one(alloc: Global, lint: Lint) -> CompileFault
    ensures { IsOneLint lint result }
{
    let mut lints = Lints::new(alloc);
    match lints.push(lint) {
        Ok(()) => CompileFault::Lints(lints),
        Err(_) => CompileFault::NoMemory,
    }
}

#[tactic(auto, using(crate::proofs::Faults::input_fault))]
fn input_of(alloc: Global, config: &Config) -> Result<InputPlan, CompileFault>
    requires { AreViolations config.now.doc [] }
    ensures made { IfOk result (IsInputOf config.now.doc) }
    ensures refused { IfErr result (IsFaultOf config.now.doc) }
{
    match make_input(alloc, &config.doc) {
        Ok(input) => Ok(input),
        Err(Refusal::Lint(lint)) => Err(one(alloc, lint)),
        Err(Refusal::NoMemory) => Err(CompileFault::NoMemory),
    }
}

#[tactic(auto, using(crate::proofs::Faults::output_fault))]
fn output_of(alloc: Global, config: &Config) -> Result<OutputPlan, CompileFault>
    requires { AreViolations config.now.doc [] }
    ensures made { IfOk result (IsOutputOf config.now.doc) }
    ensures refused { IfErr result (IsFaultOf config.now.doc) }
{
    match make_output(alloc, &config.doc) {
        Ok(output) => Ok(output),
        Err(Refusal::Lint(lint)) => Err(one(alloc, lint)),
        Err(Refusal::NoMemory) => Err(CompileFault::NoMemory),
    }
}

#[tactic(auto, using(crate::proofs::Faults::procs_fault, crate::proofs::Faults::some_procs, crate::proofs::Faults::no_procs))]
fn procs_of(alloc: Global, config: &Config) -> Result<Procs, CompileFault>
    requires { AreViolations config.now.doc [] }
    ensures made { IfOk result (AreProcessorsOf config.now.doc) }
    ensures refused { IfErr result (IsFaultOf config.now.doc) }
{
    match compile_procs(alloc, config, "/pipeline/processors") {
        Ok(procs) => Ok(procs),
        Err(ProcsFault::NotThere) => Ok(Procs::new(alloc)),
        Err(ProcsFault::Lint(lint)) => Err(one(alloc, lint)),
        Err(ProcsFault::NoMemory) => Err(CompileFault::NoMemory),
    }
}

// Whether there are too many leaves, sinks or holds.
fn is_large(p: &OutputPlan) -> bool
    ensures { numbers (length p.now.sinks.list) p.now.output from_start ≡ Some (record { leaf = p.now.leaves; hold = length p.now.holds.list })
        → stands_well (length p.now.sinks.list) (length p.now.holds.list) p.now.output ≡ not result }
{
    p.sinks.len() > 256 || p.leaves > 256 || p.holds.len() > 64
}

fn too_many(alloc: Global) -> CompileFault
    ensures { IsOneLint (record { pointer = codes "/output"; kind = lint.TooMany }) result }
{
    match Text::make(alloc, "/output") {
        Ok(pointer) => one(
            alloc,
            Lint {
                pointer,
                kind: LintKind::TooMany,
            },
        ),
        Err(NoMemory) => CompileFault::NoMemory,
    }
}

#[tactic(auto, using(crate::proofs::Faults::large_fault))]
fn checked(alloc: Global, config: &Config, output: &OutputPlan) -> Result<(), CompileFault>
    requires clean { AreViolations config.now.doc [] }
    requires output { IsOutputOf config.now.doc output.now }
    ensures stands { OnOk result (stands_well (length output.now.sinks.list) (length output.now.holds.list) output.now.output ≡ true) }
    ensures refused { IfErr result (IsFaultOf config.now.doc) }
{
    if is_large(output) {
        Err(too_many(alloc))
    } else {
        Ok(())
    }
}

fn plan_of(
    alloc: Global,
    config: &Config,
    procs: Procs,
    output: OutputPlan,
) -> Result<Plan, CompileFault>
    requires clean { AreViolations config.now.doc [] }
    requires procs { AreProcessorsOf config.now.doc procs }
    requires output { IsOutputOf config.now.doc output }
    ensures plan { IfOk result (IsPlanOf config.now.doc) }
    ensures refused { IfErr result (IsFaultOf config.now.doc) }
{
    match checked(alloc, config, &output) {
        Ok(()) => Ok(plan_with(alloc, &config.doc, procs, output)),
        Err(fault) => Err(fault),
    }
}

fn plan_with(alloc: Global, config: &Val, procs: Procs, output: OutputPlan) -> Plan
    requires procs { AreProcessorsOf config.now procs }
    requires output { IsOutputOf config.now output }
    requires stands { stands_well (length output.sinks.list) (length output.holds.list) output.output ≡ true }
    ensures { IsPlanOf config.now result }
{
    let OutputPlan {
        output,
        sinks,
        ends,
        holds,
        leaves: _,
    } = output;
    Plan {
        alloc,
        procs,
        output,
        sinks,
        ends,
        threads: threads(config),
        window: window(config),
        holds,
    }
}
