//! A value inside a text or a tree.
ghost use Rattle.std.specs.Prelude.{◌≡◌, option_map, option_and_then, IfOk};
ghost use Rattle.serde_json.specs.Find.{as_i64};
ghost use Rattle.serde_json.specs.Read.{number_of};
ghost use Rattle.bt_doc.specs.Doc.{IsBegun, here, text_in, number_in, bool_in, member_in, item_in};
ghost use Rattle.bt_value.specs.declared.val.Val.{out-Val};

use crate::build::value_at;
use bt_ports::NoMemory;
use bt_value::{Val, copy, json_number};
use json::Element;
use std::alloc::Global;
use std::marker::Model;

/// A value inside a text that was read, or in a tree, which contracts see as that value.
#[derive(Drop)]
pub struct Part<'t, 'a> {
    pub(crate) place: Place<'t, 'a>,
}

/// Where a part stands: among the nodes of a text, or in a tree.
#[derive(Drop)]
pub(crate) enum Place<'t, 'a> {
    Flat(Element<'t, 'a>),
    Tree(&'t Val),
}

impl<'t, 'a> Model for Part<'t, 'a> {
    ghost use Rattle.std.specs.Coded.{codes};
    ghost use Rattle.bt_value.specs.contracts.val.Val as val;
    ghost use Rattle.bt_value.specs.declared.val.Val.{Val};
    ghost use Rattle.bt_doc.specs.Place.{IsPlace, place_value};

    ghost Value = { Val };

    ghost coded = { Prim.hlevel (codes, val.the_row.coded) };

    ghost view = { λ p. place_value p.place };

    ghost invariant = { λ p. IsPlace p.place };
}

impl<'t, 'a> Part<'t, 'a> {
    /// A value of a tree.
    pub fn of(value: &'t Val) -> Part<'t, 'a>
        ensures { result ≡ value.now }
    {
        Part {
            place: Place::Tree(value),
        }
    }

    /// A value of its own that is the same.
    pub fn to_val(&self, alloc: Global) -> Result<Val, NoMemory>
        ensures { IfOk result (λ v. v ≡ self.now) }
    {
        match &self.place {
            Place::Flat(element) => value_at(alloc, element),
            Place::Tree(value) => copy(alloc, value),
        }
    }

    /// The truth value that it is, if it is one.
    pub fn as_bool(&self) -> Option<bool>
        ensures { result ≡ bool_in (out-Val self.now) }
    {
        match &self.place {
            Place::Flat(element) => flat_bool(element),
            Place::Tree(value) => match value {
                Val::Bool(b) => Some(*b),
                _ => None,
            },
        }
    }

    /// The whole number that it is, if it is one.
    pub fn as_i64(&self) -> Option<i64>
        ensures { result ≡ number_in (out-Val self.now) }
    {
        match &self.place {
            Place::Flat(element) => flat_integer(element),
            Place::Tree(value) => match value {
                Val::Int(n) => Some(*n),
                _ => None,
            },
        }
    }

    /// The text that it is, if it is one.
    pub fn as_str(&self) -> Option<&str>
        ensures { option_map (λ s. s.now) result ≡ text_in (out-Val self.now) }
    {
        match &self.place {
            Place::Flat(element) => flat_text(element),
            Place::Tree(value) => match value {
                Val::Str(text) => Some(text.as_str()),
                _ => None,
            },
        }
    }

    /// The member with the key, where this is an object.
    pub fn get(&self, key: &str) -> Option<Part<'t, 'a>>
        ensures { result ≡ member_in key.now (out-Val self.now) }
    {
        match &self.place {
            Place::Flat(element) => flat_member(element, key),
            Place::Tree(value) => match value {
                Val::Obj(members) => match members.find(key) {
                    Some(member) => Some(Part::of(member)),
                    None => None,
                },
                _ => None,
            },
        }
    }

    /// The item at the place, where this is a list.
    pub fn at(&self, place: usize) -> Option<Part<'t, 'a>>
        ensures { result ≡ item_in place (out-Val self.now) }
    {
        match &self.place {
            Place::Flat(element) => flat_item(element, place),
            Place::Tree(value) => match value {
                Val::Arr(items) => match items.get(place) {
                    Some(item) => Some(Part::of(item)),
                    None => None,
                },
                _ => None,
            },
        }
    }
}

fn flat_text<'a>(element: &Element<'_, 'a>) -> Option<&'a str>
    requires { IsBegun element.now }
    ensures { option_map (λ s. s.now) result ≡ text_in (out-Val (here element.now)) }
{
    element.as_str()
}

fn flat_bool(element: &Element<'_, '_>) -> Option<bool>
    requires { IsBegun element.now }
    ensures { result ≡ bool_in (out-Val (here element.now)) }
{
    element.as_bool()
}

fn flat_integer(element: &Element<'_, '_>) -> Option<i64>
    requires { IsBegun element.now }
    ensures { result ≡ number_in (out-Val (here element.now)) }
{
    match element.as_number() {
        Some(text) => whole_number(text),
        None => None,
    }
}

fn flat_member<'t, 'a>(element: &Element<'t, 'a>, key: &str) -> Option<Part<'t, 'a>>
    requires { IsBegun element.now }
    ensures { result ≡ member_in key.now (out-Val (here element.now)) }
{
    match element.get(key) {
        Some(found) => Some(Part {
            place: Place::Flat(found),
        }),
        None => None,
    }
}

fn flat_item<'t, 'a>(element: &Element<'t, 'a>, place: usize) -> Option<Part<'t, 'a>>
    requires { IsBegun element.now }
    ensures { result ≡ item_in place (out-Val (here element.now)) }
{
    match element.at(place) {
        Some(found) => Some(Part {
            place: Place::Flat(found),
        }),
        None => None,
    }
}

/// The whole number of 64 bits that a number's text is, if it is one.
pub(crate) fn whole_number(text: &str) -> Option<i64>
    ensures { result ≡ option_and_then as_i64 (number_of text.now) }
{
    match json_number(text) {
        Some(number) => number,
        None => None,
    }
}
