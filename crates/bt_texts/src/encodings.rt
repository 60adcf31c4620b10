//! Bytes as text by a scheme, and back.
ghost use Rattle.std.specs.Prelude.{◌≡◌, IfOk};
ghost use Rattle.bt_texts.specs.Encodings as spec;

use base64::DecodeAllocError;
use base64::engine::general_purpose::{STANDARD, URL_SAFE};
use bt_kinds::kinds::{failure, wrong};
use bt_kinds::targets::{string, text};
use bt_ports::NoMemory;
use bt_ports::blob::Blob;
use bt_ports::text::Text;
use bt_value::{Out, Val};
use hex::FromHexError;
use std::alloc::Global;

/// How bytes stand as text.
#[derive(Clone, Copy, PartialEq, Eq, Debug)]
pub enum Scheme {
    /// The padded standard alphabet.
    Base64,
    /// The padded alphabet for URLs.
    UrlSafe,
    /// Two digits a byte, in lower case.
    Hex,
}

/// The scheme of a name.
fn scheme_of(name: &str) -> Scheme
    ensures { result ≡ spec.scheme name.now }
{
    if name == "base64" {
        Scheme::Base64
    } else if name == "base64url" {
        Scheme::UrlSafe
    } else {
        Scheme::Hex
    }
}

#[tactic(auto, unfolding(crate::specs::Encodings::encoded))]
fn encoded(alloc: Global, scheme: Scheme, b: &[u8]) -> Result<Text, NoMemory>
    ensures { IfOk result (λ t. t ≡ spec.encoded scheme b.now) }
{
    match scheme {
        Scheme::Base64 => match STANDARD.encode(alloc, b) {
            Ok(s) => Ok(Text::from_string(s)),
            Err(_) => Err(NoMemory),
        },
        Scheme::UrlSafe => match URL_SAFE.encode(alloc, b) {
            Ok(s) => Ok(Text::from_string(s)),
            Err(_) => Err(NoMemory),
        },
        Scheme::Hex => match hex::encode(alloc, b) {
            Ok(s) => Ok(Text::from_string(s)),
            Err(_) => Err(NoMemory),
        },
    }
}

#[tactic(auto, unfolding(crate::specs::Encodings::decoded), using(crate::proofs::Readings::none_from_err))]
fn decoded(alloc: Global, scheme: Scheme, s: &[u8]) -> Result<Option<Blob>, NoMemory>
    ensures { IfOk result (λ b. b ≡ spec.decoded scheme s.now) }
{
    match scheme {
        Scheme::Base64 => match STANDARD.decode(alloc, s) {
            Ok(b) => Ok(Some(Blob::from_vec(b))),
            Err(DecodeAllocError::OutOfMemory) => Err(NoMemory),
            Err(DecodeAllocError::DecodeError(_)) => Ok(None),
        },
        Scheme::UrlSafe => match URL_SAFE.decode(alloc, s) {
            Ok(b) => Ok(Some(Blob::from_vec(b))),
            Err(DecodeAllocError::OutOfMemory) => Err(NoMemory),
            Err(DecodeAllocError::DecodeError(_)) => Ok(None),
        },
        Scheme::Hex => match hex::decode(alloc, s) {
            Ok(b) => Ok(Some(Blob::from_vec(b))),
            Err(FromHexError::OutOfMemory) => Err(NoMemory),
            Err(_) => Ok(None),
        },
    }
}

/// The target by a scheme.
pub fn encode(alloc: Global, target: Val, a: Val) -> Result<Out, NoMemory>
    ensures { IfOk result (λ o. o ≡ spec.encode target a) }
{
    match text(target) {
        Ok(t) => match string(a) {
            Ok(name) => {
                let s = encoded(alloc, scheme_of(name.as_str()), t.as_slice())?;
                Ok(Out::Value(Val::Str(s)))
            }
            Err(kind) => wrong(alloc, "encode", kind),
        },
        Err(kind) => wrong(alloc, "encode", kind),
    }
}

/// The bytes that the target stands for by a scheme.
pub fn decode(alloc: Global, target: Val, a: Val) -> Result<Out, NoMemory>
    ensures { IfOk result (λ o. o ≡ spec.decode target a) }
{
    match text(target) {
        Ok(t) => match string(a) {
            Ok(name) => match decoded(alloc, scheme_of(name.as_str()), t.as_slice())? {
                Some(b) => Ok(Out::Value(Val::Bytes(b))),
                None => failure(alloc, "decode", "bad text"),
            },
            Err(kind) => wrong(alloc, "decode", kind),
        },
        Err(kind) => wrong(alloc, "decode", kind),
    }
}
