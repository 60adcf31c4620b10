//! The methods on texts.
ghost use Rattle.std.specs.Prelude.{◌≡◌, ◌++◌, ◌<◌, ◌&&◌, IfOk, OnOk, chars, length, nat_eq, map, string_bytes};
ghost use Rattle.std.specs.Char.{encode_utf8};
ghost use Rattle.std.specs.List.{starts_with, ends_with, flat_map};
ghost use Rattle.memchr.specs.Find.{matches};
ghost use Rattle.bt_value.specs.declared.val.Val.{Str, Bytes};
ghost use Rattle.bt_kinds.specs.Targets as targets;
ghost use Rattle.bt_texts.specs.Texts as spec;

use bt_kinds::kinds::{Kind, wrong};
use bt_kinds::moving::into_vec;
use bt_kinds::targets::{Chunk, array, string, strings, text};
use bt_ports::NoMemory;
use bt_ports::blob::Blob;
use bt_ports::text::Text;
use bt_value::{Out, Val, Vals};
use memchr::memmem;
use sqlite_items::Items;
use std::alloc::{AllocError, Global};

/// ASCII letters in upper case.
pub fn uppercase(alloc: Global, target: Val) -> Result<Out, NoMemory>
    ensures { IfOk result (λ o. o ≡ spec.uppercase target) }
{
    match string(target) {
        Ok(s) => {
            let mut string = s.into_string();
            string.make_ascii_uppercase();
            Ok(Out::Value(Val::Str(Text::from_string(string))))
        }
        Err(kind) => wrong(alloc, "uppercase", kind),
    }
}

/// ASCII letters in lower case.
pub fn lowercase(alloc: Global, target: Val) -> Result<Out, NoMemory>
    ensures { IfOk result (λ o. o ≡ spec.lowercase target) }
{
    match string(target) {
        Ok(s) => {
            let mut string = s.into_string();
            string.make_ascii_lowercase();
            Ok(Out::Value(Val::Str(Text::from_string(string))))
        }
        Err(kind) => wrong(alloc, "lowercase", kind),
    }
}

/// Without white space at both ends.
pub fn trim(alloc: Global, target: Val) -> Result<Out, NoMemory>
    ensures { IfOk result (λ o. o ≡ spec.trim target) }
{
    match string(target) {
        Ok(s) => Ok(Out::Value(Val::Str(Text::make(alloc, s.as_str().trim())?))),
        Err(kind) => wrong(alloc, "trim", kind),
    }
}

/// A string and a text.
fn string_and_text(target: Val, a: Val) -> Result<(Text, Chunk), Kind>
    ensures { result ≡ targets.two (targets.string target) (targets.text a) }
{
    match string(target) {
        Ok(s) => match text(a) {
            Ok(t) => Ok((s, t)),
            Err(kind) => Err(kind),
        },
        Err(kind) => Err(kind),
    }
}

/// Two texts.
fn two_texts(target: Val, a: Val) -> Result<(Chunk, Chunk), Kind>
    ensures { result ≡ targets.two (targets.text target) (targets.text a) }
{
    match text(target) {
        Ok(s) => match text(a) {
            Ok(t) => Ok((s, t)),
            Err(kind) => Err(kind),
        },
        Err(kind) => Err(kind),
    }
}

fn begins(s: &[u8], t: &[u8]) -> bool
    ensures { result ≡ starts_with nat_eq s.now t.now }
{
    s.starts_with(t)
}

fn ends(s: &[u8], t: &[u8]) -> bool
    ensures { result ≡ ends_with nat_eq s.now t.now }
{
    s.ends_with(t)
}

/// A string without another at its beginning.
fn without_prefix<'a>(s: &'a str, t: &str) -> &'a str
    ensures { result.now ≡ spec.without_prefix s.now t.now }
{
    if begins(s.as_bytes(), t.as_bytes()) {
        &s[t.len()..]
    } else {
        s
    }
}

/// Bytes without others at their beginning.
#[tactic(auto, using(crate::proofs::Ends::prefix_fits))]
fn bytes_without_prefix<'a>(s: &'a [u8], t: &[u8]) -> &'a [u8]
    ensures { result.now ≡ spec.without_prefix s.now t.now }
{
    if begins(s, t) { &s[t.len()..] } else { s }
}

/// A string without another at its end.
#[tactic(auto, using(crate::proofs::Ends::before_suffix, crate::proofs::Ends::suffix_fits))]
fn without_suffix<'a>(s: &'a str, t: &str) -> &'a str
    ensures { result.now ≡ spec.without_suffix s.now t.now }
{
    if ends(s.as_bytes(), t.as_bytes()) {
        &s[..s.len() - t.len()]
    } else {
        s
    }
}

/// Bytes without others at their end.
#[tactic(auto, using(crate::proofs::Ends::suffix_fits))]
fn bytes_without_suffix<'a>(s: &'a [u8], t: &[u8]) -> &'a [u8]
    ensures { result.now ≡ spec.without_suffix s.now t.now }
{
    if ends(s, t) {
        &s[..s.len() - t.len()]
    } else {
        s
    }
}

/// Without a text at the beginning.
pub fn trim_prefix(alloc: Global, target: Val, a: Val) -> Result<Out, NoMemory>
    ensures { IfOk result (λ o. o ≡ spec.trim_prefix target a) }
{
    match string_and_text(target, a) {
        Ok((s, t)) => match t {
            Chunk::Str(t) => {
                let left = without_prefix(s.as_str(), t.as_str());
                Ok(Out::Value(Val::Str(Text::make(alloc, left)?)))
            }
            Chunk::Bytes(t) => {
                let left = bytes_without_prefix(s.as_str().as_bytes(), t.as_slice());
                Ok(Out::Value(Val::Bytes(Blob::make(alloc, left)?)))
            }
        },
        Err(kind) => wrong(alloc, "trim_prefix", kind),
    }
}

/// Without a text at the end.
pub fn trim_suffix(alloc: Global, target: Val, a: Val) -> Result<Out, NoMemory>
    ensures { IfOk result (λ o. o ≡ spec.trim_suffix target a) }
{
    match string_and_text(target, a) {
        Ok((s, t)) => match t {
            Chunk::Str(t) => {
                let left = without_suffix(s.as_str(), t.as_str());
                Ok(Out::Value(Val::Str(Text::make(alloc, left)?)))
            }
            Chunk::Bytes(t) => {
                let left = bytes_without_suffix(s.as_str().as_bytes(), t.as_slice());
                Ok(Out::Value(Val::Bytes(Blob::make(alloc, left)?)))
            }
        },
        Err(kind) => wrong(alloc, "trim_suffix", kind),
    }
}

/// Whether it begins with a text.
pub fn has_prefix(alloc: Global, target: Val, a: Val) -> Result<Out, NoMemory>
    ensures { IfOk result (λ o. o ≡ spec.has_prefix target a) }
{
    match two_texts(target, a) {
        Ok((s, t)) => Ok(Out::Value(Val::Bool(begins(s.as_slice(), t.as_slice())))),
        Err(kind) => wrong(alloc, "has_prefix", kind),
    }
}

/// Whether it ends with a text.
pub fn has_suffix(alloc: Global, target: Val, a: Val) -> Result<Out, NoMemory>
    ensures { IfOk result (λ o. o ≡ spec.has_suffix target a) }
{
    match two_texts(target, a) {
        Ok((s, t)) => Ok(Out::Value(Val::Bool(ends(s.as_slice(), t.as_slice())))),
        Err(kind) => wrong(alloc, "has_suffix", kind),
    }
}

/// A character as a text.
fn character(alloc: Global, c: char, as_string: bool) -> Result<Val, NoMemory>
    ensures { IfOk result (λ x. x ≡ spec.made as_string (encode_utf8 c)) }
{
    let mut one = String::new(alloc);
    if one.push(c).is_err() {
        return Err(NoMemory);
    }
    if as_string {
        Ok(Val::Str(Text::from_string(one)))
    } else {
        Ok(Val::Bytes(Blob::from_vec(one.into_bytes())))
    }
}

fn characters(alloc: Global, s: &str, as_string: bool) -> Result<Vals, NoMemory>
    ensures { IfOk result (λ xs. xs ≡ map (λ c. spec.made as_string (encode_utf8 c)) (chars s.now)) }
{
    let mut got = Items::new(alloc);
    for c in s.chars() {
        got.push(character(alloc, c, as_string)?)?;
    }
    Ok(got)
}

/// The pieces of a string between another.
fn string_between(alloc: Global, s: &str, t: &str) -> Result<Vals, NoMemory>
    requires { 0 < length t.now }
    ensures { IfOk result (λ xs. xs ≡ map Str (spec.between s.now (length t.now) 0 (matches s.now t.now 0))) }
{
    let mut got = Items::new(alloc);
    let mut from: usize = 0;
    for at in memmem::find_iter(s.as_bytes(), t.as_bytes()) {
        got.push(Val::Str(Text::make(alloc, &s[from..at])?))?;
        from = at + t.len();
    }
    got.push(Val::Str(Text::make(alloc, &s[from..])?))?;
    Ok(got)
}

/// The pieces of bytes between others.
#[tactic(auto, using(crate::proofs::Cuts::byte_cuts))]
fn bytes_between(alloc: Global, s: &[u8], t: &[u8]) -> Result<Vals, NoMemory>
    requires { 0 < length t.now }
    ensures { IfOk result (λ xs. xs ≡ map Bytes (spec.between s.now (length t.now) 0 (matches s.now t.now 0))) }
{
    let mut got = Items::new(alloc);
    let mut from: usize = 0;
    for at in memmem::find_iter(s, t) {
        got.push(Val::Bytes(Blob::make(alloc, &s[from..at])?))?;
        from = at + t.len();
    }
    got.push(Val::Bytes(Blob::make(alloc, &s[from..])?))?;
    Ok(got)
}

fn pieces(alloc: Global, s: &str, t: &Chunk) -> Result<Vals, NoMemory>
    ensures { IfOk result (λ xs. xs ≡ spec.pieces (targets.is_string t.now) s.now (targets.bytes_of t.now)) }
{
    match t.as_slice() {
        [] => characters(alloc, s, t.is_string()),
        [_, ..] => match t {
            Chunk::Str(t) => string_between(alloc, s, t.as_str()),
            Chunk::Bytes(t) => bytes_between(alloc, s.as_bytes(), t.as_slice()),
        },
    }
}

/// The pieces of a text between another.
pub fn split(alloc: Global, target: Val, a: Val) -> Result<Out, NoMemory>
    ensures { IfOk result (λ o. o ≡ spec.split target a) }
{
    match string_and_text(target, a) {
        Ok((s, t)) => Ok(Out::Value(Val::Arr(pieces(alloc, s.as_str(), &t)?))),
        Err(kind) => wrong(alloc, "split", kind),
    }
}

/// A string and others behind it, each with another before it.
fn string_onto(first: String, rest: &[Text], t: &str) -> Result<String, AllocError>
    ensures { IfOk result (λ r. string_bytes r ≡ string_bytes first ++ flat_map (λ r. t.now ++ r) rest.now) }
{
    let mut out = first;
    for s in rest {
        out.push_str(t)?;
        out.push_str(s.as_str())?;
    }
    Ok(out)
}

fn string_joined(alloc: Global, ss: &[Text], t: &str) -> Result<String, AllocError>
    ensures { IfOk result (λ r. string_bytes r ≡ spec.joined_by t.now ss.now) }
{
    match ss {
        [] => Ok(String::new(alloc)),
        [first, rest @ ..] => string_onto(String::from_str(alloc, first.as_str())?, rest, t),
    }
}

/// Bytes and strings behind them, each with others before it.
fn bytes_onto(first: Blob, rest: &[Text], t: &[u8]) -> Result<Blob, NoMemory>
    ensures { IfOk result (λ b. b ≡ first ++ flat_map (λ r. t.now ++ r) rest.now) }
{
    let mut out = first;
    for s in rest {
        out.push_all(t)?;
        out.push_all(s.as_str().as_bytes())?;
    }
    Ok(out)
}

fn bytes_joined(alloc: Global, ss: &[Text], t: &[u8]) -> Result<Blob, NoMemory>
    ensures { IfOk result (λ b. b ≡ spec.joined_by t.now ss.now) }
{
    match ss {
        [] => Ok(Blob::new(alloc)),
        [first, rest @ ..] => {
            let start = Blob::make(alloc, first.as_str().as_bytes())?;
            bytes_onto(start, rest, t)
        }
    }
}

/// Strings joined by a text.
fn joined(alloc: Global, ss: &Items<Text>, t: &Chunk) -> Result<Val, NoMemory>
    ensures { IfOk result (λ x. x ≡ spec.made (targets.is_string t.now) (spec.joined_by (targets.bytes_of t.now) ss.now)) }
{
    match t {
        Chunk::Str(t) => {
            let all = string_joined(alloc, ss.as_slice(), t.as_str())?;
            Ok(Val::Str(Text::from_string(all)))
        }
        Chunk::Bytes(t) => Ok(Val::Bytes(bytes_joined(alloc, ss.as_slice(), t.as_slice())?)),
    }
}

/// The strings of a list joined.
pub fn join(alloc: Global, target: Val, a: Option<Val>) -> Result<Out, NoMemory>
    ensures { IfOk result (λ o. o ≡ spec.join target a) }
{
    match a {
        Some(a) => match array(target) {
            Ok(items) => match text(a) {
                Ok(t) => match strings(alloc, into_vec(alloc, items)?)? {
                    Ok(ss) => Ok(Out::Value(joined(alloc, &ss, &t)?)),
                    Err(kind) => wrong(alloc, "join", kind),
                },
                Err(kind) => wrong(alloc, "join", kind),
            },
            Err(kind) => wrong(alloc, "join", kind),
        },
        None => match array(target) {
            Ok(items) => match strings(alloc, into_vec(alloc, items)?)? {
                Ok(ss) => {
                    let all = string_joined(alloc, ss.as_slice(), "")?;
                    Ok(Out::Value(Val::Str(Text::from_string(all))))
                }
                Err(kind) => wrong(alloc, "join", kind),
            },
            Err(kind) => wrong(alloc, "join", kind),
        },
    }
}

/// A string with another in the place of each occurrence of a third.
fn string_replaced_from(alloc: Global, s: &str, a: &str, t: &str) -> Result<String, AllocError>
    requires { 0 < length a.now }
    ensures { IfOk result (λ r. string_bytes r ≡ spec.replaced_from s.now (length a.now) t.now 0 (matches s.now a.now 0)) }
{
    let mut out = String::new(alloc);
    let mut from: usize = 0;
    for at in memmem::find_iter(s.as_bytes(), a.as_bytes()) {
        out.push_str(&s[from..at])?;
        out.push_str(t)?;
        from = at + a.len();
    }
    out.push_str(&s[from..])?;
    Ok(out)
}

/// Bytes with others in the place of each occurrence of a third run.
#[tactic(auto, using(crate::proofs::Cuts::byte_cuts))]
fn bytes_replaced_from(alloc: Global, s: &[u8], a: &[u8], t: &[u8]) -> Result<Blob, NoMemory>
    requires { 0 < length a.now }
    ensures { IfOk result (λ b. b ≡ spec.replaced_from s.now (length a.now) t.now 0 (matches s.now a.now 0)) }
{
    let mut out = Blob::new(alloc);
    let mut from: usize = 0;
    for at in memmem::find_iter(s, a) {
        out.push_all(&s[from..at])?;
        out.push_all(t)?;
        from = at + a.len();
    }
    out.push_all(&s[from..])?;
    Ok(out)
}

fn push_char(alloc: Global, out: &mut Blob, c: char) -> Result<(), NoMemory>
    ensures { OnOk result (out.new ≡ out.old ++ encode_utf8 c) }
{
    let mut one = String::new(alloc);
    if one.push(c).is_err() {
        return Err(NoMemory);
    }
    out.push_all(one.as_bytes())
}

/// Bytes before each character of a string.
fn bytes_woven(alloc: Global, s: &str, t: &[u8]) -> Result<Blob, NoMemory>
    ensures { IfOk result (λ b. b ≡ flat_map (λ c. t.now ++ encode_utf8 c) (chars s.now)) }
{
    let mut out = Blob::new(alloc);
    for c in s.chars() {
        out.push_all(t)?;
        push_char(alloc, &mut out, c)?;
    }
    Ok(out)
}

/// A string before each character of another.
fn string_woven(alloc: Global, s: &str, t: &str) -> Result<String, AllocError>
    ensures { IfOk result (λ r. string_bytes r ≡ flat_map (λ c. t.now ++ encode_utf8 c) (chars s.now)) }
{
    let mut out = String::new(alloc);
    for c in s.chars() {
        out.push_str(t)?;
        out.push(c)?;
    }
    Ok(out)
}

fn string_replaced(alloc: Global, s: &str, a: &str, t: &str) -> Result<String, AllocError>
    ensures { IfOk result (λ r. string_bytes r ≡ spec.replaced s.now a.now t.now) }
{
    match a.as_bytes() {
        [] => {
            let mut out = string_woven(alloc, s, t)?;
            out.push_str(t)?;
            Ok(out)
        }
        [_, ..] => string_replaced_from(alloc, s, a, t),
    }
}

fn bytes_replaced(alloc: Global, s: &str, a: &[u8], t: &[u8]) -> Result<Blob, NoMemory>
    ensures { IfOk result (λ b. b ≡ spec.replaced s.now a.now t.now) }
{
    match a {
        [] => {
            let mut out = bytes_woven(alloc, s, t)?;
            out.push_all(t)?;
            Ok(out)
        }
        [_, ..] => bytes_replaced_from(alloc, s.as_bytes(), a, t),
    }
}

/// A string with a text in the place of each occurrence of another.
fn replaced(alloc: Global, s: &str, a: &Chunk, b: &Chunk) -> Result<Val, NoMemory>
    ensures { IfOk result (λ x. x ≡ spec.made (targets.is_string a.now && targets.is_string b.now) (spec.replaced s.now (targets.bytes_of a.now) (targets.bytes_of b.now))) }
{
    match a {
        Chunk::Str(a) => match b {
            Chunk::Str(b) => {
                let all = string_replaced(alloc, s, a.as_str(), b.as_str())?;
                Ok(Val::Str(Text::from_string(all)))
            }
            Chunk::Bytes(b) => {
                let all = bytes_replaced(alloc, s, a.as_str().as_bytes(), b.as_slice())?;
                Ok(Val::Bytes(all))
            }
        },
        Chunk::Bytes(a) => Ok(Val::Bytes(bytes_replaced(alloc, s, a.as_slice(), b.as_slice())?)),
    }
}

/// Each occurrence of a text replaced.
pub fn replace_all(alloc: Global, target: Val, a: Val, b: Val) -> Result<Out, NoMemory>
    ensures { IfOk result (λ o. o ≡ spec.replace_all target a b) }
{
    match string(target) {
        Ok(s) => match two_texts(a, b) {
            Ok((a, b)) => Ok(Out::Value(replaced(alloc, s.as_str(), &a, &b)?)),
            Err(kind) => wrong(alloc, "replace_all", kind),
        },
        Err(kind) => wrong(alloc, "replace_all", kind),
    }
}
