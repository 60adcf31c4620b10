//! What a walk over a configuration finds.
ghost use Rattle.std.specs.Prelude.{◌≡◌, ◌++◌, ◌∷◌, [], IfOk, OnOk, map, length};
ghost use Rattle.bt_walk.specs.Found as spec;

use bt_ports::NoMemory;
use bt_ports::text::Text;
use bt_schema::{Language, LintKind};
use std::alloc::Global;
use std::marker::Model;

/// What is found at a place.
#[derive(Drop)]
pub enum Found<'a> {
    /// Something is wrong.
    Wrong(LintKind),
    /// A text, of which the mapping language says what is wrong.
    Text(Language, &'a str),
}

/// What is found, and where.
#[derive(Drop)]
pub struct Finding<'a> {
    /// The pointer of RFC 6901.
    pub pointer: Text,
    /// What.
    pub found: Found<'a>,
}

/// What is found in a configuration, in its order. It borrows the configuration's texts.
#[derive(Drop)]
pub struct Findings<'a> {
    list: Vec<Finding<'a>>,
}

impl<'a> Model for Findings<'a> {
    ghost use Rattle.std.specs.Prelude.{List, map};
    ghost use Rattle.bt_walk.specs.Found.{Located, located};

    ghost Value = { List Located };

    ghost view = { λ f. map located f.list.items };
}

impl<'a> Findings<'a> {
    /// Nothing found. It takes no memory.
    pub fn new(alloc: Global) -> Findings<'a>
        ensures { result ≡ [] }
    {
        Findings {
            list: Vec::new(alloc),
        }
    }

    /// What was found, in its order.
    pub fn as_slice(&self) -> &[Finding<'a>]
        ensures { map spec.located result.now ≡ self.now }
    {
        self.list.as_slice()
    }

    /// What was found, in its order, in a vector. It takes no memory.
    pub fn into_vec(self) -> Vec<Finding<'a>>
        ensures { map spec.located result.items ≡ self.entry }
    {
        let Findings { list } = self;
        list
    }

    fn push(&mut self, finding: Finding<'a>) -> Result<(), NoMemory>
        ensures { OnOk result (self.new ≡ self.old ++ spec.located finding.entry ∷ []) }
    {
        self.list.push(finding)?;
        Ok(())
    }

    /// Something is wrong at the pointer.
    pub fn wrong(&mut self, alloc: Global, at: &str, kind: LintKind) -> Result<(), NoMemory>
        ensures { OnOk result (self.new ≡ self.old ++ spec.at_pointer at.now (spec.wrong kind ∷ [])) }
    {
        let pointer = Text::make(alloc, at)?;
        self.push(Finding {
            pointer,
            found: Found::Wrong(kind),
        })
    }

    /// A text stands at the pointer.
    pub fn text(
        &mut self,
        alloc: Global,
        at: &str,
        language: Language,
        text: &'a str,
    ) -> Result<(), NoMemory>
        ensures { OnOk result (self.new ≡ self.old ++ spec.at_pointer at.now (spec.text language text.now ∷ [])) }
    {
        let pointer = Text::make(alloc, at)?;
        self.push(Finding {
            pointer,
            found: Found::Text(language, text),
        })
    }
}

/// Something is wrong at the pointer, where the test holds.
pub fn push_when(
    alloc: Global,
    test: bool,
    at: &str,
    kind: LintKind,
    out: &mut Findings<'_>,
) -> Result<(), NoMemory>
    ensures { OnOk result (out.new ≡ out.old ++ spec.at_pointer at.now (spec.when test kind)) }
{
    if test {
        out.wrong(alloc, at, kind)
    } else {
        Ok(())
    }
}
