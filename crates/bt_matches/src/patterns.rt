//! The methods with patterns, which mean what `regex` states of their texts.
ghost use Rattle.std.specs.Prelude.{◌≡◌, [], Some, None, IfOk, IfSome, IfNone, OnOk, map, option_map, string_bytes};
ghost use Rattle.regex.specs.Names.{names_of};
ghost use Rattle.regex.specs.Replace.{bytes_of};
ghost use Rattle.regex.specs.Patterns.{find_all_str};
ghost use Rattle.regex.specs.Strings.{captures_haystack, captures_span, regex_pattern};
ghost use Rattle.bt_kinds.specs.Moving.{put};
ghost use Rattle.bt_value.specs.declared.val.Val.{Str};
ghost use Rattle.bt_patterns.specs.Patterns.{pattern_of_text};
ghost use Rattle.bt_matches.specs.Patterns as spec;

use bt_kinds::kinds::{failure, wrong};
use bt_kinds::moving::put;
use bt_kinds::targets::string;
use bt_patterns::{Pattern, PatternRefusal};
use bt_ports::NoMemory;
use bt_ports::text::Text;
use bt_value::{Fields, Members, Out, Val, Vals};
use regex::{Captures, Regex, Template};
use sqlite_items::Items;
use std::alloc::{AllocError, Global};

/// A pattern: one that is at hand, or a new one.
#[derive(Drop)]
enum Built<'a> {
    Known(&'a Pattern),
    New(Pattern),
}

impl<'a> Built<'a> {
    fn pattern(&self) -> &Pattern
        ensures { result.now ≡ spec.text_of self.now }
    {
        match self {
            Built::Known(pattern) => pattern,
            Built::New(pattern) => pattern,
        }
    }
}

/// The pattern of a text, where `regex` reads the text: the one at hand where it was built from this
/// very text, and else a new one.
fn pattern_for<'a>(
    alloc: Global,
    text: &str,
    known: Option<&'a Pattern>,
) -> Result<Option<Built<'a>>, NoMemory>
    ensures of { IfOk result (λ r. IfSome r (λ b. spec.text_of b ≡ text.now)) }
    ensures none { IfOk result (λ r. IfNone r (pattern_of_text text.now ≡ None)) }
{
    if let Some(pattern) = known {
        if pattern.text() == text {
            return Ok(Some(Built::Known(pattern)));
        }
    }
    match Pattern::build(alloc, text) {
        Ok(pattern) => Ok(Some(Built::New(pattern))),
        Err(PatternRefusal::Bad) => Ok(None),
        Err(PatternRefusal::NoMemory) => Err(NoMemory),
    }
}

/// Whether the text has a match.
fn matched(alloc: Global, pattern: &Pattern, text: &str) -> Result<bool, AllocError>
    ensures { IfOk result (λ b. spec.has_match pattern.now text.now ≡ Some b) }
{
    let regex = pattern.regex();
    let mut matcher = regex.matcher(alloc)?;
    Ok(matcher.is_match(text))
}

/// The texts that an expression matches, from the left.
fn texts_found(alloc: Global, regex: &Regex, text: &str) -> Result<Vec<String>, AllocError>
    ensures { IfOk result (λ v. map string_bytes v.items ≡ spec.matched_texts (find_all_str (regex_pattern regex.now) text.now) text.now) }
{
    let mut matcher = regex.matcher(alloc)?;
    let mut texts = Vec::new(alloc);
    for found in matcher.find_iter(text) {
        let owned = String::from_str(alloc, found.as_str())?;
        texts.push(owned)?;
    }
    Ok(texts)
}

/// The texts that match, from the left.
fn found_all(alloc: Global, pattern: &Pattern, text: &str) -> Result<Vec<String>, AllocError>
    ensures { IfOk result (λ v. spec.all_matches pattern.now text.now ≡ Some (map string_bytes v.items)) }
{
    let texts = texts_found(alloc, pattern.regex(), text)?;
    Ok(texts)
}

/// The text with what the template writes in the place of each match.
fn rewritten(
    alloc: Global,
    pattern: &Pattern,
    template: &str,
    text: &str,
) -> Result<String, AllocError>
    ensures { IfOk result (λ t. spec.rewritten pattern.now text.now template.now ≡ Some (string_bytes t)) }
{
    let regex = pattern.regex();
    let template = Template::new(alloc, regex.capture_names(), template)?;
    let mut matcher = regex.matcher(alloc)?;
    matcher.replace_all(alloc, text, &template)
}

fn texts(alloc: Global, strings: Vec<String>) -> Result<Vals, NoMemory>
    ensures { IfOk result (λ xs. xs ≡ map Str (map string_bytes strings.items)) }
{
    let mut got = Items::new(alloc);
    for string in strings {
        got.push(Val::Str(Text::from_string(string)))?;
    }
    Ok(got)
}

/// Whether the target has a match.
pub fn re_match(
    alloc: Global,
    target: Val,
    p: Val,
    known: Option<&Pattern>,
) -> Result<Out, NoMemory>
    ensures { IfOk result (λ o. o ≡ spec.re_match target p) }
{
    match string(target) {
        Ok(s) => match string(p) {
            Ok(source) => match pattern_for(alloc, source.as_str(), known)? {
                Some(found) => {
                    let has = matched(alloc, found.pattern(), s.as_str())?;
                    Ok(Out::Value(Val::Bool(has)))
                }
                None => failure(alloc, "re_match", "bad pattern"),
            },
            Err(kind) => wrong(alloc, "re_match", kind),
        },
        Err(kind) => wrong(alloc, "re_match", kind),
    }
}

/// The list of matched texts.
pub fn re_find_all(
    alloc: Global,
    target: Val,
    p: Val,
    known: Option<&Pattern>,
) -> Result<Out, NoMemory>
    ensures { IfOk result (λ o. o ≡ spec.re_find_all target p) }
{
    match string(target) {
        Ok(s) => match string(p) {
            Ok(source) => match pattern_for(alloc, source.as_str(), known)? {
                Some(found) => {
                    let all = found_all(alloc, found.pattern(), s.as_str())?;
                    Ok(Out::Value(Val::Arr(texts(alloc, all)?)))
                }
                None => failure(alloc, "re_find_all", "bad pattern"),
            },
            Err(kind) => wrong(alloc, "re_find_all", kind),
        },
        Err(kind) => wrong(alloc, "re_find_all", kind),
    }
}

/// Each match replaced by what a template of `regex` writes.
pub fn re_replace_all(
    alloc: Global,
    target: Val,
    p: Val,
    t: Val,
    known: Option<&Pattern>,
) -> Result<Out, NoMemory>
    ensures { IfOk result (λ o. o ≡ spec.re_replace_all target p t) }
{
    match string(target) {
        Ok(s) => match string(p) {
            Ok(source) => match string(t) {
                Ok(template) => match pattern_for(alloc, source.as_str(), known)? {
                    Some(found) => {
                        let out = rewritten(alloc, found.pattern(), template.as_str(), s.as_str())?;
                        Ok(Out::Value(Val::Str(Text::from_string(out))))
                    }
                    None => failure(alloc, "re_replace_all", "bad pattern"),
                },
                Err(kind) => wrong(alloc, "re_replace_all", kind),
            },
            Err(kind) => wrong(alloc, "re_replace_all", kind),
        },
        Err(kind) => wrong(alloc, "re_replace_all", kind),
    }
}

/// Puts what a group matched, by its name or its number.
fn put_group(
    alloc: Global,
    got: &mut Members,
    i: usize,
    name: &Option<String>,
    part: &str,
) -> Result<(), NoMemory>
    ensures { OnOk result (got.new ≡ put (spec.group_key i (option_map string_bytes name.now)) (Str part.now) got.old) }
{
    let value = Val::Str(Text::make(alloc, part)?);
    match name {
        Some(name) => put(alloc, got, name.as_str(), value),
        None => match format!(in alloc; "{i}") {
            Ok(digits) => put(alloc, got, digits.as_str(), value),
            Err(_) => Err(NoMemory),
        },
    }
}

/// What a group matched.
fn part<'h>(captures: &Captures<'_, 'h>, i: usize) -> &'h str
    ensures { result.now ≡ bytes_of (captures_haystack captures.now) (captures_span captures.now i) }
{
    match captures.get(i) {
        Some(found) => found.as_str(),
        None => "",
    }
}

/// The groups of a match, each with what it matched.
fn groups(
    alloc: Global,
    captures: &Captures<'_, '_>,
    names: &[Option<String>],
) -> Result<Members, NoMemory>
    ensures { IfOk result (λ ms. ms ≡ spec.groups_from 0 (names_of names.now)
        (λ n. bytes_of (captures_haystack captures.now) (captures_span captures.now n)) []) }
{
    let mut got = Fields::new(alloc);
    let mut i: usize = 0;
    for name in names {
        put_group(alloc, &mut got, i, name, part(captures, i))?;
        i += 1;
    }
    Ok(got)
}

/// The groups of the first match.
fn found_groups(alloc: Global, pattern: &Pattern, text: &str) -> Result<Members, NoMemory>
    ensures { IfOk result (λ ms. spec.found_groups pattern.now text.now ≡ Some ms) }
{
    let regex = pattern.regex();
    let Ok(mut matcher) = regex.matcher(alloc) else {
        return Err(NoMemory);
    };
    match matcher.captures(text) {
        Some(captures) => groups(alloc, &captures, regex.capture_names()),
        None => Ok(Fields::new(alloc)),
    }
}

/// The groups of the first match, by name or number.
pub fn re_find_object(
    alloc: Global,
    target: Val,
    p: Val,
    known: Option<&Pattern>,
) -> Result<Out, NoMemory>
    ensures { IfOk result (λ o. o ≡ spec.re_find_object target p) }
{
    match string(target) {
        Ok(s) => match string(p) {
            Ok(source) => match pattern_for(alloc, source.as_str(), known)? {
                Some(found) => {
                    let members = found_groups(alloc, found.pattern(), s.as_str())?;
                    Ok(Out::Value(Val::Obj(members)))
                }
                None => failure(alloc, "re_find_object", "bad pattern"),
            },
            Err(kind) => wrong(alloc, "re_find_object", kind),
        },
        Err(kind) => wrong(alloc, "re_find_object", kind),
    }
}
