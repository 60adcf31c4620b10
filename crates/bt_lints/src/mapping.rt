//! The lints of a mapping.

ghost use Rattle.std.specs.Prelude.{◌≡◌, ◌↔◌, ◌⊎◌, ◌++◌, [], ◌∷◌, flat_map, IfOk, OnOk};
ghost use Rattle.std.specs.List.{Contains};
ghost use Rattle.std.specs.List.Sorted.{IsStrictlySortedBy};
ghost use Rattle.bt_findings.specs.Steps.{each};
ghost use Rattle.bt_lints.specs.Adding.{Adds};
ghost use Rattle.bt_lints.specs.Lints as spec;
ghost use Rattle.bt_lints.specs.Lints.{IsLint, Reaches};
ghost use Rattle.bt_lints.specs.Order.{by_place};
ghost use Rattle.bt_lints.specs.declared.lint.MapLint.{MapLint};

use crate::lint::{MapLintKind, MapLints, Use};
use crate::linter::{Linter, push_if, query_of};
use crate::names::{Names, has, push_name};
use crate::order::arranged;
use crate::reach::{Application, Applications, reaching};
use bt_findings::{Finding, Findings, find_all};
use bt_ports::NoMemory;
use bt_ports::text::Text;
use bt_tree::{MapStmt, Mapping, Query, Stmt};
use std::alloc::Global;

/// What is found in a map's body.
fn find_in_body(alloc: Global, out: &mut Findings, body: &[MapStmt]) -> Result<(), NoMemory>
    ensures { OnOk result (out.new.list ≡ each spec.map_stmt_findings out.old.list body.now) }
{
    for stmt in body {
        find_all(alloc, out, query_of(stmt))?;
    }
    Ok(())
}

fn push_application(
    alloc: Global,
    out: &mut Applications,
    by: &Text,
    map: &Text,
) -> Result<(), NoMemory>
    ensures { OnOk result (out.new.list ≡ out.old.list ++ (record { by = by.now; map = map.now }) ∷ []) }
{
    let application = Application {
        by: Text::make(alloc, by.as_str())?,
        map: Text::make(alloc, map.as_str())?,
    };
    match out.push(application) {
        Ok(()) => Ok(()),
        Err((NoMemory, _)) => Err(NoMemory),
    }
}

/// The maps that one map applies, of what was found in its body.
fn push_applied(
    alloc: Global,
    out: &mut Applications,
    by: &Text,
    findings: &[Finding],
) -> Result<(), NoMemory>
    ensures { OnOk result (out.new.list ≡ out.old.list ++ spec.applied_by by.now findings.now) }
{
    for finding in findings {
        if let Finding::Apply(word) = finding {
            push_application(alloc, out, by, &word.text)?;
        }
    }
    Ok(())
}

fn push_applications(alloc: Global, out: &mut Applications, stmt: &Stmt) -> Result<(), NoMemory>
    ensures { OnOk result (out.new.list ≡ out.old.list ++ spec.stmt_applications stmt.now) }
{
    match stmt {
        Stmt::Map { name, body, .. } => {
            let mut findings = Findings::new(alloc);
            find_in_body(alloc, &mut findings, body.as_slice())?;
            push_applied(alloc, out, name, findings.as_slice())
        }
        _ => Ok(()),
    }
}

/// Which map applies which.
fn applications(alloc: Global, stmts: &[Stmt]) -> Result<Applications, NoMemory>
    ensures { IfOk result (λ found. found.list ≡ spec.applications stmts.now) }
{
    let mut found = Applications::new(alloc);
    for stmt in stmts {
        push_applications(alloc, &mut found, stmt)?;
    }
    Ok(found)
}

/// Puts the name of a map behind names.
fn push_map(alloc: Global, names: &mut Names, stmt: &Stmt) -> Result<(), NoMemory>
    ensures { OnOk result (names.new.list ≡ names.old.list ++ spec.stmt_maps stmt.now) }
{
    match stmt {
        Stmt::Map { name, .. } => push_name(alloc, names, name.as_str()),
        _ => Ok(()),
    }
}

/// The names of a mapping's maps.
fn map_names(alloc: Global, stmts: &[Stmt]) -> Result<Names, NoMemory>
    ensures { IfOk result (λ names. names.list ≡ spec.map_names stmts.now) }
{
    let mut names = Names::new(alloc);
    for stmt in stmts {
        push_map(alloc, &mut names, stmt)?;
    }
    Ok(names)
}

/// Puts the variable that a statement sets behind those that are set.
fn push_set(alloc: Global, variables: &mut Names, stmt: &Stmt) -> Result<(), NoMemory>
    ensures { OnOk result (variables.new.list ≡ variables.old.list ++ spec.sets stmt.now) }
{
    match stmt {
        Stmt::Let { name, .. } => push_name(alloc, variables, name.as_str()),
        _ => Ok(()),
    }
}

/// The statements of a mapping, as they are looked at.
#[derive(Clone, Copy)]
struct Statements<'a> {
    linter: Linter<'a>,
    applications: &'a [Application],
}

impl<'a> Statements<'a> {
    /// A query outside of maps.
    fn query(&self, out: &mut MapLints, variables: &[Text], q: &Query) -> Result<(), NoMemory>
        ensures { OnOk result (Adds
            (spec.QueryLint (spec.scope self.now.linter.how self.now.linter.maps.now variables.now) (λ n. ⊥) q.now)
            out.old.list out.new.list) }
    {
        let leads = Names::new(self.linter.alloc);
        self.linter.query(out, variables, leads.as_slice(), q)
    }

    fn duplicate(
        &self,
        out: &mut MapLints,
        earlier: &[Text],
        at: usize,
        name: &Text,
    ) -> Result<(), NoMemory>
        ensures { OnOk result (Adds
            (λ x. Contains earlier.now name.now × (x ≡ spec.lint at MapLintKind.DuplicateMap))
            out.old.list out.new.list) }
    {
        push_if(
            out,
            has(earlier, name.as_str()),
            at,
            MapLintKind::DuplicateMap,
        )
    }

    /// The body of a map.
    fn body(&self, out: &mut MapLints, name: &Text, body: &[MapStmt]) -> Result<(), NoMemory>
        ensures { OnOk result (Adds
            (spec.BodyLint (spec.scope self.now.linter.how self.now.linter.maps.now [])
            (λ n. Reaches self.now.applications.now n name.now) body.now)
            out.old.list out.new.list) }
    {
        let leads = reaching(self.linter.alloc, self.applications, name.as_str())?;
        self.linter.body(out, leads.as_slice(), body)
    }

    fn stmt(
        &self,
        out: &mut MapLints,
        variables: &[Text],
        earlier: &[Text],
        stmt: &Stmt,
    ) -> Result<(), NoMemory>
        ensures { OnOk result (Adds
            (spec.StmtLint (spec.scope self.now.linter.how self.now.linter.maps.now variables.now)
            earlier.now self.now.applications.now stmt.now)
            out.old.list out.new.list) }
    {
        match stmt {
            Stmt::Root { at, query, .. } => {
                self.linter.root(out, *at)?;
                self.query(out, variables, query)
            }
            Stmt::Meta { query, .. } => self.query(out, variables, query),
            Stmt::Let { query, .. } => self.query(out, variables, query),
            Stmt::Map { at, name, body } => {
                self.duplicate(out, earlier, *at, name)?;
                self.body(out, name, body.as_slice())
            }
        }
    }

    fn stmts(&self, out: &mut MapLints, stmts: &[Stmt]) -> Result<(), NoMemory>
        ensures { OnOk result (Adds
            (spec.StmtsLint (spec.scope self.now.linter.how self.now.linter.maps.now [])
            [] self.now.applications.now stmts.now)
            out.old.list out.new.list) }
    {
        let mut variables = Names::new(self.linter.alloc);
        let mut earlier = Names::new(self.linter.alloc);
        for stmt in stmts {
            self.stmt(out, variables.as_slice(), earlier.as_slice(), stmt)?;
            push_set(self.linter.alloc, &mut variables, stmt)?;
            push_map(self.linter.alloc, &mut earlier, stmt)?;
        }
        Ok(())
    }
}

/// Puts the lints of statements behind lints.
fn lint_stmts(alloc: Global, out: &mut MapLints, stmts: &[Stmt], how: Use) -> Result<(), NoMemory>
    ensures { OnOk result (Adds
        (spec.StmtsLint (spec.scope how (spec.map_names stmts.now) []) [] (spec.applications stmts.now) stmts.now)
        out.old.list out.new.list) }
{
    let maps = map_names(alloc, stmts)?;
    let applications = applications(alloc, stmts)?;
    let statements = Statements {
        linter: Linter {
            alloc,
            how,
            maps: maps.as_slice(),
        },
        applications: applications.as_slice(),
    };
    statements.stmts(out, stmts)
}

/// Puts the lints of a query that is a whole mapping behind lints.
fn lint_query(alloc: Global, out: &mut MapLints, q: &Query, how: Use) -> Result<(), NoMemory>
    ensures { OnOk result (Adds (spec.QueryLint (spec.scope how [] []) (λ n. ⊥) q.now) out.old.list out.new.list) }
{
    let none = Names::new(alloc);
    let linter = Linter {
        alloc,
        how,
        maps: none.as_slice(),
    };
    linter.query(out, none.as_slice(), none.as_slice(), q)
}

fn lints_of(alloc: Global, out: &mut MapLints, m: &Mapping, how: Use) -> Result<(), NoMemory>
    ensures { OnOk result (Adds (IsLint m.now how) out.old.list out.new.list) }
{
    match m {
        Mapping::Query { query, .. } => lint_query(alloc, out, query, how),
        Mapping::Statements(stmts) => lint_stmts(alloc, out, stmts.as_slice(), how),
    }
}

/// All that is wrong in a mapping, in order of place, and at one place in order of kind.
pub fn lint_mapping(alloc: Global, m: &Mapping, how: Use) -> Result<MapLints, NoMemory>
    ensures all { IfOk result (λ lints. (x : MapLint) → Contains lints.list x ↔ IsLint m.now how x) }
    ensures in_order { IfOk result (λ lints. IsStrictlySortedBy by_place lints.list) }
{
    let mut found = MapLints::new(alloc);
    lints_of(alloc, &mut found, m, how)?;
    Ok(arranged(found))
}
