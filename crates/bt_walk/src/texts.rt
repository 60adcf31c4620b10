//! What is wrong with a text.
ghost use Rattle.std.specs.Prelude.{◌≡◌, ◌++◌, OnOk, not, [], ◌∷◌};
ghost use Rattle.bt_schema.specs.Texts.{period};
ghost use Rattle.bt_schema.specs.declared.lints.LintKind.TheVariants as kind;
ghost use Rattle.bt_walk.specs.Found as found;
ghost use Rattle.bt_walk.specs.Own as spec;
ghost use Rattle.bt_walk.specs.Targets.{is_target};

use crate::findings::{Findings, push_when};
use crate::targets::is_target;
use bt_ports::NoMemory;
use bt_schema::{Form, Language, LintKind, delimiter, fits, fits_csv, is_glob, period};
use bt_value::Val;
use std::alloc::Global;

/// What is wrong with a value of another kind than the form needs.
pub fn push_other(
    alloc: Global,
    form: Form,
    at: &str,
    out: &mut Findings<'_>,
) -> Result<(), NoMemory>
    ensures { OnOk result (out.new ≡ out.old ++ found.at_pointer at.now (spec.other_kind form)) }
{
    match form {
        Form::Object | Form::Component | Form::Choice | Form::AnyObject => {
            out.wrong(alloc, at, LintKind::NotObject)
        }
        Form::Refused => out.wrong(alloc, at, LintKind::NotInProfile),
        Form::AnyValue => Ok(()),
        _ => out.wrong(alloc, at, LintKind::WrongType),
    }
}

/// What is wrong with a text.
pub fn push_text<'a>(
    alloc: Global,
    newer: bool,
    config: &Val,
    form: Form,
    text: &'a str,
    at: &str,
    out: &mut Findings<'a>,
) -> Result<(), NoMemory>
    ensures { OnOk result (out.new ≡ out.old ++ found.at_pointer at.now (spec.of_text newer config.now form text.now)) }
{
    match form {
        Form::Text => Ok(()),
        Form::FilledText => push_when(alloc, text.is_empty(), at, LintKind::OutOfRange, out),
        Form::Path => push_when(alloc, is_glob(text), at, LintKind::NotInProfile, out),
        Form::Codec => push_codec(alloc, text, at, out),
        Form::OutputCodec => push_output_codec(alloc, newer, text, at, out),
        Form::LinesDelimiter => push_when(alloc, !fits(text), at, LintKind::OutOfRange, out),
        Form::CsvDelimiter => push_when(alloc, !fits_csv(text), at, LintKind::OutOfRange, out),
        Form::Period { input } => push_period(alloc, input, text, at, out),
        Form::Pattern => {
            let other = text != "fan_out_fail_fast";
            push_when(alloc, other, at, LintKind::NotInProfile, out)
        }
        Form::Format => {
            let unknown = text != "lines" && text != "json_array";
            push_when(alloc, unknown, at, LintKind::WrongType, out)
        }
        Form::Target => push_target(alloc, config, text, at, out),
        Form::Query { language, optional } => push_query(alloc, language, optional, text, at, out),
        form => push_other(alloc, form, at, out),
    }
}

fn push_target(
    alloc: Global,
    config: &Val,
    pointer: &str,
    at: &str,
    out: &mut Findings<'_>,
) -> Result<(), NoMemory>
    ensures { OnOk result (out.new ≡ out.old ++ found.at_pointer at.now (found.when (not (is_target config.now pointer.now)) kind.OutOfRange)) }
{
    let there = is_target(alloc, config, pointer)?;
    push_when(alloc, !there, at, LintKind::OutOfRange, out)
}

fn push_output_codec(
    alloc: Global,
    newer: bool,
    codec: &str,
    at: &str,
    out: &mut Findings<'_>,
) -> Result<(), NoMemory>
    ensures { OnOk result (out.new ≡ out.old ++ found.at_pointer at.now (spec.of_output_codec newer codec.now)) }
{
    if newer {
        push_codec(alloc, codec, at, out)
    } else {
        push_when(alloc, codec != "lines", at, LintKind::WrongType, out)
    }
}

fn push_codec(alloc: Global, codec: &str, at: &str, out: &mut Findings<'_>) -> Result<(), NoMemory>
    ensures { OnOk result (out.new ≡ out.old ++ found.at_pointer at.now (spec.of_codec codec.now)) }
{
    if codec == "lines" {
        return Ok(());
    }
    match delimiter(codec) {
        Some(x) => push_when(alloc, !fits(x), at, LintKind::OutOfRange, out),
        None => out.wrong(alloc, at, LintKind::WrongType),
    }
}

#[tactic(auto, using(crate::proofs::Capped::is_past_a_day, crate::proofs::Capped::is_some_time))]
fn push_period(
    alloc: Global,
    input: bool,
    text: &str,
    at: &str,
    out: &mut Findings<'_>,
) -> Result<(), NoMemory>
    ensures { OnOk result (out.new ≡ out.old ++ found.at_pointer at.now (spec.of_period input (period text.now))) }
{
    match period(text) {
        Some(n) => {
            push_when(alloc, n > 86_400_000, at, LintKind::OutOfRange, out)?;
            push_when(alloc, input && n != 0, at, LintKind::NotInProfile, out)
        }
        None => out.wrong(alloc, at, LintKind::WrongType),
    }
}

fn push_query<'a>(
    alloc: Global,
    language: Language,
    optional: bool,
    text: &'a str,
    at: &str,
    out: &mut Findings<'a>,
) -> Result<(), NoMemory>
    ensures { OnOk result (out.new ≡ out.old ++ found.at_pointer at.now (spec.of_query language optional text.now)) }
{
    if optional && text.is_empty() {
        Ok(())
    } else {
        out.text(alloc, at, language, text)
    }
}
