//! What is wrong with a value by itself.
ghost use Rattle.std.specs.Prelude.{◌≡◌, ◌++◌, OnOk, map};
ghost use Rattle.bt_schema.specs.Table as table;
ghost use Rattle.bt_walk.specs.Found as found;
ghost use Rattle.bt_walk.specs.Own as spec;
ghost use Rattle.bt_walk.specs.Walk as walk;

use crate::above::Above;
use crate::findings::{Findings, push_when};
use crate::members::{has, has_one_kind};
use crate::texts::{push_other, push_text};
use bt_ports::NoMemory;
use bt_ports::text::Text;
use bt_schema::{Form, LintKind, Place, form_of, required};
use bt_value::{Members, Val};
use std::alloc::Global;

/// What is wrong with a value because of what stands above it, or of all that stands below it.
pub fn push_above(
    alloc: Global,
    above: Above,
    at: &str,
    out: &mut Findings<'_>,
) -> Result<(), NoMemory>
    ensures { OnOk result (out.new ≡ out.old ++ found.at_pointer at.now (walk.from_above above)) }
{
    push_when(
        alloc,
        above.batching_below,
        at,
        LintKind::BatchingBelow,
        out,
    )?;
    push_when(
        alloc,
        above.changes_number,
        at,
        LintKind::ChangesNumber,
        out,
    )?;
    push_when(alloc, above.too_many, at, LintKind::TooMany, out)?;
    push_when(alloc, above.two_codecs, at, LintKind::TwoCodecs, out)
}

/// What is wrong with a value by itself.
pub fn push_own<'a>(
    alloc: Global,
    config: &Val,
    v: &'a Val,
    here: Place,
    above: Above,
    at: &str,
    out: &mut Findings<'a>,
) -> Result<(), NoMemory>
    ensures { OnOk result (out.new ≡ out.old ++ found.at_pointer at.now (spec.of_value config.now (table.form_of here) here above (walk.opened v.now))) }
{
    let form = form_of(here);
    match v {
        Val::Null => push_other(alloc, form, at, out),
        Val::Bool(b) => push_bool(alloc, form, *b, at, out),
        Val::Int(n) => push_number(alloc, form, *n, at, out),
        Val::Str(text) => push_text(alloc, above.newer, config, form, text.as_str(), at, out),
        Val::Bytes(_) => push_other(alloc, form, at, out),
        Val::Arr(items) => push_list(alloc, form, items.len(), at, out),
        Val::Obj(fields) => push_object(alloc, form, here, above, fields, at, out),
    }
}

fn push_bool(
    alloc: Global,
    form: Form,
    b: bool,
    at: &str,
    out: &mut Findings<'_>,
) -> Result<(), NoMemory>
    ensures { OnOk result (out.new ≡ out.old ++ found.at_pointer at.now (spec.of_bool form b)) }
{
    match form {
        Form::Flag => Ok(()),
        Form::Never => push_when(alloc, b, at, LintKind::NotInProfile, out),
        form => push_other(alloc, form, at, out),
    }
}

fn push_number(
    alloc: Global,
    form: Form,
    n: i64,
    at: &str,
    out: &mut Findings<'_>,
) -> Result<(), NoMemory>
    ensures { OnOk result (out.new ≡ out.old ++ found.at_pointer at.now (spec.of_number form n)) }
{
    match form {
        Form::Number { least, most } => {
            push_when(alloc, n < least || most < n, at, LintKind::OutOfRange, out)
        }
        form => push_other(alloc, form, at, out),
    }
}

fn push_list(
    alloc: Global,
    form: Form,
    n: usize,
    at: &str,
    out: &mut Findings<'_>,
) -> Result<(), NoMemory>
    ensures { OnOk result (out.new ≡ out.old ++ found.at_pointer at.now (spec.of_list form n)) }
{
    match form {
        Form::List { least, most } => {
            let outside = n < least || is_past(n, most);
            push_when(alloc, outside, at, LintKind::OutOfRange, out)
        }
        form => push_other(alloc, form, at, out),
    }
}

fn is_past(n: usize, most: Option<usize>) -> bool
    ensures { result ≡ spec.is_past n most }
{
    match most {
        Some(most) => most < n,
        None => false,
    }
}

fn push_object(
    alloc: Global,
    form: Form,
    here: Place,
    above: Above,
    fields: &Members,
    at: &str,
    out: &mut Findings<'_>,
) -> Result<(), NoMemory>
    ensures { OnOk result (out.new ≡ out.old ++ found.at_pointer at.now (spec.of_object form here above (walk.met fields.now))) }
{
    match form {
        Form::Object => {
            push_missing(alloc, required(here), fields, at, out)?;
            push_together(alloc, here, above, fields, at, out)
        }
        Form::Component | Form::Choice => {
            let one = has_one_kind(here, fields);
            push_when(alloc, !one, at, LintKind::NotOneKind, out)
        }
        Form::AnyObject => Ok(()),
        form => push_other(alloc, form, at, out),
    }
}

fn push_missing(
    alloc: Global,
    names: &[&str],
    fields: &Members,
    at: &str,
    out: &mut Findings<'_>,
) -> Result<(), NoMemory>
    ensures { OnOk result (out.new ≡ out.old ++ found.at_pointer at.now (spec.missing (map (λ s. s.now) names.entry.now) (walk.met fields.now))) }
{
    for name in names {
        if !has(fields, name) {
            let text = Text::make(alloc, name)?;
            out.wrong(alloc, at, LintKind::Missing(text))?;
        }
    }
    Ok(())
}

fn push_together(
    alloc: Global,
    here: Place,
    above: Above,
    fields: &Members,
    at: &str,
    out: &mut Findings<'_>,
) -> Result<(), NoMemory>
    ensures { OnOk result (out.new ≡ out.old ++ found.at_pointer at.now (spec.together here above (walk.met fields.now))) }
{
    match here {
        Place::Test => {
            let absent = !has(fields, "target_processors") && !above.has_processors;
            push_when(alloc, absent, at, LintKind::OutOfRange, out)
        }
        Place::Stdin | Place::FileInput => {
            let both = above.newer && has(fields, "codec") && has(fields, "scanner");
            push_when(alloc, both, at, LintKind::CodecAndScanner, out)
        }
        _ => Ok(()),
    }
}
