//! The lints of queries and of bodies.

ghost use Rattle.std.specs.Prelude.{◌≡◌, ◌↔◌, ◌⊎◌, ◌++◌, [], ◌∷◌, IsTrue, OnOk};
ghost use Rattle.std.specs.List.{Contains};
ghost use Rattle.bt_lints.specs.Adding.{Adds};
ghost use Rattle.bt_lints.specs.Lints as spec;

use crate::lint::{MapLint, MapLintKind, MapLints, Use};
use crate::names::{Names, has, push_name};
use bt_findings::{Finding, Findings, find_all};
use bt_ports::NoMemory;
use bt_ports::text::Text;
use bt_tree::{MapStmt, Query};
use std::alloc::Global;

/// What is known of a mapping where its queries are looked at.
#[derive(Clone, Copy)]
pub struct Linter<'a> {
    /// Where memory comes from.
    pub alloc: Global,
    /// What the mapping is used for.
    pub how: Use,
    /// The names of its maps.
    pub maps: &'a [Text],
}

/// Puts a lint at the end.
fn push(out: &mut MapLints, at: usize, kind: MapLintKind) -> Result<(), NoMemory>
    ensures { OnOk result (Adds (λ x. x ≡ spec.lint at kind) out.old.list out.new.list) }
{
    match out.push(MapLint { at, kind }) {
        Ok(()) => Ok(()),
        Err((NoMemory, _)) => Err(NoMemory),
    }
}

/// Puts a lint at the end where there is one.
pub fn push_if(
    out: &mut MapLints,
    holds: bool,
    at: usize,
    kind: MapLintKind,
) -> Result<(), NoMemory>
    ensures { OnOk result (Adds (λ x. IsTrue holds × (x ≡ spec.lint at kind)) out.old.list out.new.list) }
{
    if holds { push(out, at, kind) } else { Ok(()) }
}

fn is_check(how: Use) -> bool
    ensures { IsTrue result ↔ (how ≡ Use.Check) }
{
    matches!(how, Use::Check)
}

/// The query of a map's statement.
pub fn query_of(stmt: &MapStmt) -> &Query
    ensures { result.now ≡ spec.map_query stmt.now }
{
    match stmt {
        MapStmt::Root { query, .. } => query,
        MapStmt::Let { query, .. } => query,
    }
}

/// Puts the variable that a map's statement sets behind those that are set.
fn push_set(alloc: Global, variables: &mut Names, stmt: &MapStmt) -> Result<(), NoMemory>
    ensures { OnOk result (variables.new.list ≡ variables.old.list ++ spec.map_sets stmt.now) }
{
    match stmt {
        MapStmt::Let { name, .. } => push_name(alloc, variables, name.as_str()),
        MapStmt::Root { .. } => Ok(()),
    }
}

impl<'a> Linter<'a> {
    /// `root`, at its place.
    pub fn root(&self, out: &mut MapLints, at: usize) -> Result<(), NoMemory>
        ensures { OnOk result (Adds (spec.RootLint self.now.how at) out.old.list out.new.list) }
    {
        push_if(out, is_check(self.how), at, MapLintKind::RootInCheck)
    }

    fn variable(
        &self,
        out: &mut MapLints,
        variables: &[Text],
        at: usize,
        name: &Text,
    ) -> Result<(), NoMemory>
        ensures { OnOk result (Adds
            (λ x. (Contains variables.now name.now → ⊥) × (x ≡ spec.lint at MapLintKind.UnknownVariable))
            out.old.list out.new.list) }
    {
        let unknown = !has(variables, name.as_str());
        push_if(out, unknown, at, MapLintKind::UnknownVariable)
    }

    fn unknown_map(&self, out: &mut MapLints, at: usize, name: &Text) -> Result<(), NoMemory>
        ensures { OnOk result (Adds
            (λ x. (Contains self.now.maps.now name.now → ⊥) × (x ≡ spec.lint at MapLintKind.UnknownMap))
            out.old.list out.new.list) }
    {
        let unknown = !has(self.maps, name.as_str());
        push_if(out, unknown, at, MapLintKind::UnknownMap)
    }

    fn cycle(
        &self,
        out: &mut MapLints,
        leads: &[Text],
        at: usize,
        name: &Text,
    ) -> Result<(), NoMemory>
        ensures { OnOk result (Adds
            (λ x. Contains leads.now name.now × (x ≡ spec.lint at MapLintKind.MapCycle))
            out.old.list out.new.list) }
    {
        push_if(out, has(leads, name.as_str()), at, MapLintKind::MapCycle)
    }

    fn apply(
        &self,
        out: &mut MapLints,
        leads: &[Text],
        at: usize,
        name: &Text,
    ) -> Result<(), NoMemory>
        ensures { OnOk result (Adds
            (λ x. ((Contains self.now.maps.now name.now → ⊥) × (x ≡ spec.lint at MapLintKind.UnknownMap))
            ⊎ (Contains leads.now name.now × (x ≡ spec.lint at MapLintKind.MapCycle)))
            out.old.list out.new.list) }
    {
        self.unknown_map(out, at, name)?;
        self.cycle(out, leads, at, name)
    }

    /// What was found in a query, by its kind.
    fn finding(
        &self,
        out: &mut MapLints,
        variables: &[Text],
        leads: &[Text],
        finding: &Finding,
    ) -> Result<(), NoMemory>
        ensures { OnOk result (Adds
            (spec.FindingLint (spec.scope self.now.how self.now.maps.now variables.now) (Contains leads.now) finding.now)
            out.old.list out.new.list) }
    {
        match finding {
            Finding::Root(at) => self.root(out, *at),
            Finding::Variable(word) => self.variable(out, variables, word.at, &word.text),
            Finding::UnknownFunction(at) => push(out, *at, MapLintKind::UnknownFunction),
            Finding::UnknownMethod(at) => push(out, *at, MapLintKind::UnknownMethod),
            Finding::WrongArguments(at) => push(out, *at, MapLintKind::WrongArguments),
            Finding::Apply(word) => self.apply(out, leads, word.at, &word.text),
            Finding::Pattern(_) => Ok(()),
        }
    }

    fn findings(
        &self,
        out: &mut MapLints,
        variables: &[Text],
        leads: &[Text],
        findings: &[Finding],
    ) -> Result<(), NoMemory>
        ensures { OnOk result (Adds
            (λ x. spec.OneOf (λ f. spec.FindingLint (spec.scope self.now.how self.now.maps.now variables.now) (Contains leads.now) f x) findings.now)
            out.old.list out.new.list) }
    {
        for finding in findings {
            self.finding(out, variables, leads, finding)?;
        }
        Ok(())
    }

    /// A query that stands behind statements that set variables, in a map that `leads` reach.
    pub fn query(
        &self,
        out: &mut MapLints,
        variables: &[Text],
        leads: &[Text],
        q: &Query,
    ) -> Result<(), NoMemory>
        ensures { OnOk result (Adds
            (spec.QueryLint (spec.scope self.now.how self.now.maps.now variables.now) (Contains leads.now) q.now)
            out.old.list out.new.list) }
    {
        let mut findings = Findings::new(self.alloc);
        find_all(self.alloc, &mut findings, q)?;
        self.findings(out, variables, leads, findings.as_slice())
    }

    fn map_stmt(
        &self,
        out: &mut MapLints,
        variables: &[Text],
        leads: &[Text],
        stmt: &MapStmt,
    ) -> Result<(), NoMemory>
        ensures { OnOk result (Adds
            (spec.MapStmtLint (spec.scope self.now.how self.now.maps.now variables.now) (Contains leads.now) stmt.now)
            out.old.list out.new.list) }
    {
        match stmt {
            MapStmt::Root { at, query, .. } => {
                self.root(out, *at)?;
                self.query(out, variables, leads, query)
            }
            MapStmt::Let { query, .. } => self.query(out, variables, leads, query),
        }
    }

    /// The body of a map that `leads` reach.
    pub fn body(&self, out: &mut MapLints, leads: &[Text], body: &[MapStmt]) -> Result<(), NoMemory>
        ensures { OnOk result (Adds
            (spec.BodyLint (spec.scope self.now.how self.now.maps.now []) (Contains leads.now) body.now)
            out.old.list out.new.list) }
    {
        let mut variables = Names::new(self.alloc);
        for stmt in body {
            self.map_stmt(out, variables.as_slice(), leads, stmt)?;
            push_set(self.alloc, &mut variables, stmt)?;
        }
        Ok(())
    }
}
