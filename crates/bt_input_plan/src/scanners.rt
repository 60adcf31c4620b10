//! How the items of an input are parted.
ghost use Rattle.std.specs.Prelude.{◌≡◌, codes};
ghost use Rattle.bt_value.specs.Keys.{find};
ghost use Rattle.bt_input_plan.specs.Reading as spec;
ghost use Rattle.bt_input_plan.specs.Reading.{met, reading};
ghost use Rattle.bt_input_plan.specs.Scanners as scans;
ghost use Rattle.bt_input_plan.specs.Views.{seen};

use crate::fields::{is_false_at, text_at, text_of};
use bt_schema::{closing_bytes, fits, fits_csv};
use bt_value::{Members, Val};

/// Lines that end with a delimiter, or records whose fields a byte parts, with a header or without.
#[derive(Clone, Copy)]
pub enum Scanner<'a> {
    Lines(&'a str),
    Records(u8, bool),
}

fn delimiter_of(text: &str) -> &str
    ensures { result.now ≡ scans.delimiter_of text.now }
{
    if fits(text) { text } else { "\n" }
}

fn codec_of(text: &str) -> &str
    ensures { result.now ≡ scans.codec_of text.now }
{
    match closing_bytes(true, text) {
        Some(bytes) => bytes,
        None => "\n",
    }
}

fn comma_of(text: &str) -> u8
    ensures { result ≡ scans.comma_of text.now }
{
    match text.as_bytes() {
        [c] if fits_csv(text) => *c,
        _ => b',',
    }
}

// The fields of the scanner `lines`.
fn delimiter(v: &Val) -> &str
    ensures { result.now ≡ (reading v.now).delimiter }
{
    match v {
        Val::Obj(fields) => delimiter_of(text_at(fields, "custom_delimiter")),
        _ => "\n",
    }
}

// The fields of the scanner `csv`.
fn comma(v: &Val) -> u8
    ensures { result ≡ (reading v.now).comma }
{
    match v {
        Val::Obj(fields) => comma_of(text_at(fields, "custom_delimiter")),
        _ => b',',
    }
}

fn header(v: &Val) -> bool
    ensures { result ≡ (reading v.now).header }
{
    match v {
        Val::Obj(fields) => !is_false_at(fields, "parse_header_row"),
        _ => true,
    }
}

#[tactic(auto, using(crate::proofs::Finds::find_met))]
fn scanner_in(fields: &Members) -> Scanner<'_>
    ensures { seen result ≡ spec.scanner_of (find (codes "csv") (met fields.now)) (find (codes "lines") (met fields.now)) }
{
    match (fields.find("csv"), fields.find("lines")) {
        (Some(v), _) => Scanner::Records(comma(v), header(v)),
        (None, Some(v)) => Scanner::Lines(delimiter(v)),
        (None, None) => Scanner::Lines("\n"),
    }
}

fn scanner_of(v: &Val) -> Scanner<'_>
    ensures { seen result ≡ (reading v.now).scanner }
{
    match v {
        Val::Obj(fields) => scanner_in(fields),
        _ => Scanner::Lines("\n"),
    }
}

#[tactic(auto, using(crate::proofs::Finds::find_met))]
fn scanned_in(fields: &Members) -> Scanner<'_>
    ensures { seen result ≡ spec.scanned_of (find (codes "scanner") (met fields.now)) (find (codes "codec") (met fields.now)) }
{
    match (fields.find("scanner"), fields.find("codec")) {
        (Some(v), _) => scanner_of(v),
        (None, Some(codec)) => Scanner::Lines(codec_of(text_of(codec))),
        (None, None) => Scanner::Lines("\n"),
    }
}

/// How the items of a `stdin` or `file` with these fields are parted.
pub fn scanned(v: &Val) -> Scanner<'_>
    ensures { seen result ≡ (reading v.now).scanned }
{
    match v {
        Val::Obj(fields) => scanned_in(fields),
        _ => Scanner::Lines("\n"),
    }
}
