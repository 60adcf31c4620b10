//! A text that is looked at without building its tree.
ghost use Rattle.std.specs.Prelude.{◌≡◌, map, Some, None, IfOk, IsErrOf, IsSome, IsUtf8, IsTrue};
ghost use Rattle.json.specs.Tape.{node_token};
ghost use Rattle.serde_json.specs.Read.{read};
ghost use Rattle.bt_value.specs.Reading.{reading};
ghost use Rattle.bt_doc.specs.Doc.{Settled};

use crate::part::{Part, Place, whole_number};
use bt_value::Val;
use bt_value::read::{JsonFault, read_text};
use json::{Error, Node, Scratch, Tape};
use std::alloc::Global;
use std::marker::Model;

const MAX_DEPTH: usize = 127;

/// A JSON text that was read, which contracts see as its value.
#[derive(Drop)]
pub struct Doc<'a> {
    held: Held<'a>,
}

/// What is held of a text: its nodes, or its tree where the nodes alone don't tell the value.
#[derive(Drop)]
enum Held<'a> {
    Flat(Tape<'a>),
    Tree(Val),
}

impl<'a> Model for Doc<'a> {
    ghost use Rattle.std.specs.Coded.{codes};
    ghost use Rattle.bt_value.specs.contracts.val.Val as val;
    ghost use Rattle.bt_value.specs.declared.val.Val.{Val};
    ghost use Rattle.bt_doc.specs.Place.{IsHeld, held_value};

    ghost Value = { Val };

    ghost coded = { Prim.hlevel (codes, val.the_row.coded) };

    ghost view = { λ d. held_value d.held };

    ghost invariant = { λ d. IsHeld d.held };
}

impl<'a> Doc<'a> {
    /// The value that the bytes are as JSON, by the rules of `read_json`.
    pub fn open(
        alloc: Global,
        bytes: &'a [u8],
        scratch: &'a mut Scratch,
    ) -> Result<Doc<'a>, JsonFault>
        ensures ok { IfOk result (λ d. IsUtf8 bytes.now × (reading bytes.now ≡ Some d)) }
        ensures not_json { IsErrOf result JsonFault.NotJson → IsUtf8 bytes.now → read bytes.now ≡ None }
        ensures out_of_profile { IsErrOf result JsonFault.OutOfProfile
            → IsUtf8 bytes.now × IsSome (read bytes.now) × (reading bytes.now ≡ None) }
    {
        let Ok(text) = simdutf8::compat::from_utf8(bytes) else {
            return Err(JsonFault::NotJson);
        };
        match Tape::parse(text, scratch, Vec::new(alloc)) {
            Ok(tape) => if is_settled(tape.nodes()) {
                return Ok(Doc {
                    held: Held::Flat(tape),
                });
            },
            Err(Error::Invalid) => return Err(JsonFault::NotJson),
            Err(_) => {}
        }
        let mut room = Scratch::new(alloc);
        let value = read_text(alloc, text, &mut room)?;
        Ok(Doc {
            held: Held::Tree(value),
        })
    }

    /// The whole value.
    pub fn root(&self) -> Part<'_, 'a>
        ensures { result ≡ self.now }
    {
        match &self.held {
            Held::Flat(tape) => Part {
                place: Place::Flat(tape.root()),
            },
            Held::Tree(value) => Part {
                place: Place::Tree(value),
            },
        }
    }
}

/// Whether the brackets open to 127 at most and each number is a whole number of 64 bits.
fn is_settled(nodes: &[Node<'_>]) -> bool
    ensures { IsTrue result → Settled 0 (map node_token nodes.now) }
{
    let mut level: usize = 0;
    for node in nodes {
        match *node {
            Node::Object(_) | Node::Array(_) => {
                if level >= MAX_DEPTH {
                    return false;
                }
                level += 1;
            }
            Node::EndObject | Node::EndArray => level = level.saturating_sub(1),
            Node::Number(text) => if whole_number(text).is_none() {
                return false;
            },
            Node::Key(_) | Node::String(_) | Node::Bool(_) | Node::Null => {}
        }
    }
    true
}
