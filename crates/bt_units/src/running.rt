//! Tests that are run.
ghost use Rattle.std.specs.Prelude.{◌≡◌, ◌++◌, ◌∷◌, [], IfErr, IfOk, None, OnOk, codes, map};
ghost use Rattle.bt_config.specs.Violations.{AreViolations};
ghost use Rattle.bt_compile.specs.Compiled.{AreProcessorsAt, IsFaultAt};
ghost use Rattle.bt_expectations.specs.Failures.{failures_of};
ghost use Rattle.bt_proc.specs.Procs.{procs};
ghost use Rattle.bt_units.specs.Ends.{AreTestEnds, ComeBy, ComeOf, IsFaultOf, IsOfProcessors, IsOfTarget, IsOfTest, IsOneLint, IsPipeline, IsRefusedText, IsTestEnd, untargeted_lint};
ghost use Rattle.bt_units.specs.Expected.{AreExpectedBatches, Each, IsOfSome, IsRefusedBy};
ghost use Rattle.bt_units.specs.Fields as fields;
ghost use Rattle.bt_units.specs.Input as input;

use crate::end::{TestEnd, TestEnds, UnitsFault};
use crate::expected::expected_of;
use crate::fields::{AT_PIPELINE, field, name_of, target_of, tests_of};
use crate::input::input_of;
use bt_batches::{Batch, Batches};
use bt_compile::{ProcsFault, compile_procs};
use bt_config::{Config, lint_config};
use bt_expectations::{ExpectedBatch, failures};
use bt_making::Refusal;
use bt_ports::NoMemory;
use bt_ports::text::Text;
use bt_proc::{Procs, process};
use bt_schema::{Lint, LintKind, Lints, nth, under};
use bt_value::Val;
use sqlite_items::Items;
use std::alloc::Global;

/// Runs the tests of a configuration, and gives how each ended, in their order.
///
/// It needs a configuration without lints, and gives them otherwise. Of one without lints there is one lint where a pattern of
/// `pipeline` or of the tests is refused. The moment is 0.
pub fn run_tests(alloc: Global, config: &Config) -> Result<TestEnds, UnitsFault>
    ensures without_lints { IfOk result (λ ends. AreViolations config.now.doc []) }
    ensures ends { IfOk result (AreTestEnds config.now.doc) }
    ensures refused { IfErr result (IsFaultOf config.now.doc) }
{
    let lints = lint_config(alloc, config)?;
    run_linted(alloc, config, lints)
}

/// The same of a configuration whose lints are at hand.
pub fn run_linted(alloc: Global, config: &Config, lints: Lints) -> Result<TestEnds, UnitsFault>
    requires { AreViolations config.now.doc lints }
    ensures without_lints { IfOk result (λ ends. AreViolations config.now.doc []) }
    ensures ends { IfOk result (AreTestEnds config.now.doc) }
    ensures refused { IfErr result (IsFaultOf config.now.doc) }
{
    if lints.is_empty() {
        run_clean(alloc, config)
    } else {
        Err(UnitsFault::Lints(lints))
    }
}

// The same of a configuration without lints.
#[tactic(auto, using(crate::proofs::Faults::one_fault))]
fn run_clean(alloc: Global, config: &Config) -> Result<TestEnds, UnitsFault>
    requires { AreViolations config.now.doc [] }
    ensures ends { IfOk result (AreTestEnds config.now.doc) }
    ensures refused { IfErr result (IsFaultOf config.now.doc) }
{
    match ends_of(alloc, config) {
        Ok(ends) => Ok(ends),
        Err(Refusal::Lint(lint)) => Err(one(alloc, lint)),
        Err(Refusal::NoMemory) => Err(UnitsFault::NoMemory),
    }
}

// The fault of one lint.
fn one(alloc: Global, lint: Lint) -> UnitsFault
    ensures { IsOneLint lint result }
{
    let mut lints = Lints::new(alloc);
    match lints.push(lint) {
        Ok(()) => UnitsFault::Lints(lints),
        Err(_) => UnitsFault::NoMemory,
    }
}

#[tactic(auto, using(crate::proofs::Faults::pipeline_refused))]
fn ends_of(alloc: Global, config: &Config) -> Result<TestEnds, Refusal>
    ensures ends { IfOk result (AreTestEnds config.now.doc) }
    ensures refused { IfErr result (IsRefusedBy (IsRefusedText config.now.doc)) }
{
    match pipeline_of(alloc, config) {
        Ok(pipeline) => each_end(alloc, config, &pipeline),
        Err(refusal) => Err(refusal),
    }
}

// The processors of `pipeline`, where the configuration has such a list.
fn pipeline_of(alloc: Global, config: &Config) -> Result<Option<Procs>, Refusal>
    ensures made { IfOk result (IsPipeline config.now.doc) }
    ensures refused { IfErr result (IsRefusedBy (IsOfProcessors config.now.doc fields.at_pipeline)) }
{
    match compile_procs(alloc, config, AT_PIPELINE) {
        Ok(procs) => Ok(Some(procs)),
        Err(ProcsFault::NotThere) => Ok(None),
        Err(ProcsFault::Lint(lint)) => Err(Refusal::Lint(lint)),
        Err(ProcsFault::NoMemory) => Err(Refusal::NoMemory),
    }
}

#[tactic(auto, using(crate::proofs::Faults::tests_refused, crate::proofs::Ended::all_ends))]
fn each_end(alloc: Global, config: &Config, pipeline: &Option<Procs>) -> Result<TestEnds, Refusal>
    requires { IsPipeline config.now.doc pipeline.now }
    ensures ends { IfOk result (AreTestEnds config.now.doc) }
    ensures refused { IfErr result (IsRefusedBy (IsRefusedText config.now.doc)) }
{
    ends_from(alloc, config, pipeline, tests_of(&config.doc))
}

fn ends_from(
    alloc: Global,
    config: &Config,
    pipeline: &Option<Procs>,
    tests: &[Val],
) -> Result<TestEnds, Refusal>
    requires { IsPipeline config.now.doc pipeline.now }
    ensures ends { IfOk result (Each (IsTestEnd config.now.doc) tests.now) }
    ensures refused { IfErr result (IsRefusedBy (IsOfSome (IsOfTest config.now.doc) (codes "/tests") tests.now)) }
{
    let mut out = Items::new(alloc);
    for (i, test) in tests.iter().enumerate() {
        let here = nth(alloc, "/tests", i)?;
        let end = end_of(alloc, config, pipeline, test, here.as_str())?;
        push(&mut out, end)?;
    }
    Ok(out)
}

fn push(out: &mut TestEnds, end: TestEnd) -> Result<(), NoMemory>
    ensures { OnOk result (out.new ≡ out.old ++ end ∷ []) }
{
    match out.push(end) {
        Ok(()) => Ok(()),
        Err(_) => Err(NoMemory),
    }
}

// How a test ends that stands at a pointer.
#[tactic(auto, using(crate::proofs::Faults::expected_refused, crate::proofs::Faults::target_refused))]
fn end_of(
    alloc: Global,
    config: &Config,
    pipeline: &Option<Procs>,
    test: &Val,
    at: &str,
) -> Result<TestEnd, Refusal>
    requires { IsPipeline config.now.doc pipeline.now }
    ensures ended { IfOk result (IsTestEnd config.now.doc test.now) }
    ensures refused { IfErr result (IsRefusedBy (IsOfTest config.now.doc at.now test.now)) }
{
    match expected_of(alloc, test, at) {
        Ok(expected) => compared(alloc, config, pipeline, test, at, expected.as_slice()),
        Err(refusal) => Err(refusal),
    }
}

// How it ends where these batches are expected.
#[tactic(auto, using(crate::proofs::Ended::test_end))]
fn compared(
    alloc: Global,
    config: &Config,
    pipeline: &Option<Procs>,
    test: &Val,
    at: &str,
    expected: &[ExpectedBatch],
) -> Result<TestEnd, Refusal>
    requires pipeline { IsPipeline config.now.doc pipeline.now }
    requires expected { AreExpectedBatches test.now expected.now }
    ensures ended { IfOk result (IsTestEnd config.now.doc test.now) }
    ensures refused { IfErr result (IsRefusedBy (IsOfTarget config.now.doc at.now test.now)) }
{
    match batches_of(alloc, config, pipeline, test, at) {
        Ok(batches) => Ok(ended(alloc, test, expected, batches.as_slice())?),
        Err(refusal) => Err(refusal),
    }
}

// How it ends where these batches came.
fn ended(
    alloc: Global,
    test: &Val,
    expected: &[ExpectedBatch],
    batches: &[Batch],
) -> Result<TestEnd, NoMemory>
    ensures name { IfOk result (λ end. end.name ≡ fields.name_of test.now) }
    ensures fails { IfOk result (λ end. end.failures ≡ failures_of expected.now (map (λ b. b.items) batches.now)) }
{
    let failures = failures(alloc, expected, batches)?;
    let name = Text::make(alloc, name_of(test))?;
    Ok(TestEnd { name, failures })
}

// The batches that come of a test's input batch. The processors of `pipeline` are made ready once for all tests.
#[tactic(auto, using(crate::proofs::Faults::untargeted_refused, crate::proofs::Faults::come_by))]
fn batches_of(
    alloc: Global,
    config: &Config,
    pipeline: &Option<Procs>,
    test: &Val,
    at: &str,
) -> Result<Batches, Refusal>
    requires { IsPipeline config.now.doc pipeline.now }
    ensures come { IfOk result (λ bs. ComeOf config.now.doc test.now (map (λ b. b.items) bs.items)) }
    ensures refused { IfErr result (IsRefusedBy (IsOfTarget config.now.doc at.now test.now)) }
{
    if target_of(test) == AT_PIPELINE {
        by_pipeline(alloc, pipeline, test, at)
    } else {
        by_others(alloc, config, test, at)
    }
}

// Those that come by the processors of `pipeline`, where there are such.
fn by_pipeline(
    alloc: Global,
    pipeline: &Option<Procs>,
    test: &Val,
    at: &str,
) -> Result<Batches, Refusal>
    ensures come { IfOk result (λ bs. ComeBy pipeline.now test.now (map (λ b. b.items) bs.items)) }
    ensures refused { IfErr result (IsRefusedBy (λ l. (pipeline.now ≡ None) × (l ≡ untargeted_lint at.now test.now))) }
{
    match pipeline {
        Some(procs) => Ok(processed(alloc, procs, test)?),
        None => Err(Refusal::Lint(untargeted(alloc, test, at)?)),
    }
}

// Those that come by the processors of a list of its own.
#[tactic(auto, using(crate::proofs::Ended::come_of, crate::proofs::Faults::not_there, crate::proofs::Faults::lint_there))]
fn by_others(alloc: Global, config: &Config, test: &Val, at: &str) -> Result<Batches, Refusal>
    ensures come { IfOk result (λ bs. ComeOf config.now.doc test.now (map (λ b. b.items) bs.items)) }
    ensures refused { IfErr result (IsRefusedBy (IsOfTarget config.now.doc at.now test.now)) }
{
    match procs_of(alloc, config, test) {
        Ok(procs) => Ok(processed(alloc, &procs, test)?),
        Err(ProcsFault::NotThere) => Err(Refusal::Lint(untargeted(alloc, test, at)?)),
        Err(ProcsFault::Lint(lint)) => Err(Refusal::Lint(lint)),
        Err(ProcsFault::NoMemory) => Err(Refusal::NoMemory),
    }
}

// The processors that a test names.
fn procs_of(alloc: Global, config: &Config, test: &Val) -> Result<Procs, ProcsFault>
    ensures made { IfOk result (AreProcessorsAt config.now.doc (fields.target_of test.now)) }
    ensures refused { IfErr result (IsFaultAt config.now.doc (fields.target_of test.now)) }
{
    compile_procs(alloc, config, target_of(test))
}

fn processed(alloc: Global, ps: &Procs, test: &Val) -> Result<Batches, NoMemory>
    ensures { IfOk result (λ bs. map (λ b. b.items) bs.items ≡ procs ps.now 0 (input.input_of test.now)) }
{
    let batch = input_of(alloc, test)?;
    process(alloc, ps, batch, 0)
}

// The lint of a test whose pointer names no list of processors.
fn untargeted(alloc: Global, test: &Val, at: &str) -> Result<Lint, NoMemory>
    ensures { IfOk result (λ l. l ≡ untargeted_lint at.now test.now) }
{
    let pointer = match field(test, "target_processors") {
        Some(_) => under(alloc, at, "target_processors")?,
        None => Text::make(alloc, at)?,
    };
    Ok(Lint {
        pointer,
        kind: LintKind::OutOfRange,
    })
}
