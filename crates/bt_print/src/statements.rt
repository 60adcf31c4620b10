//! The text of statements.

ghost use Rattle.std.specs.Prelude.{◌≡◌, ◌++◌, [], ◌∷◌, codes, map, OnOk};
ghost use Rattle.bt_syntax.specs.declared.keywords.Keyword.TheVariants as keywords;
ghost use Rattle.bt_words.specs.Printing as print;
ghost use Rattle.bt_print.specs.Parts as parts;
ghost use Rattle.bt_print.specs.Steps.{Prints, after, all_after, joined, listed};

use crate::leaves::key;
use crate::printer::Printer;
use bt_ports::NoMemory;
use bt_ports::text::Text;
use bt_tree::{Key, MapStmt, Mapping, Query, Stmt};
use std::alloc::Global;

impl<F: Fn(Global, &mut Text, &Query, usize) -> Result<(), NoMemory>> Printer<F> {
    /// `root` and keys, each behind a `.`.
    fn target(&self, out: &mut Text, path: &[Key]) -> Result<(), NoMemory>
        ensures { OnOk result (out.new ≡ all_after parts.step (after out.old (print.keyword keywords.Root ∷ [])) path.now) }
    {
        out.push_str("root")?;
        for step in path {
            out.push_str(".")?;
            key(self.alloc, out, step)?;
        }
        Ok(())
    }

    /// `=` and a query.
    fn assigned(&self, out: &mut Text, q: &Query) -> Result<(), NoMemory>
        requires { Prints self.now.room (F.pre self.now.query) (F.post self.now.query) }
        ensures { OnOk result (out.new ≡ after out.old (print.assigned q.now)) }
    {
        out.push_str(" = ")?;
        self.query(out, q)
    }

    fn root(&self, out: &mut Text, path: &[Key], q: &Query) -> Result<(), NoMemory>
        requires { Prints self.now.room (F.pre self.now.query) (F.post self.now.query) }
        ensures { OnOk result (out.new ≡ after out.old (print.keyword keywords.Root ∷ (print.keys path.now ++ print.assigned q.now))) }
    {
        self.target(out, path)?;
        self.assigned(out, q)
    }

    fn variable(&self, out: &mut Text, name: &str, q: &Query) -> Result<(), NoMemory>
        requires { Prints self.now.room (F.pre self.now.query) (F.post self.now.query) }
        ensures { OnOk result (out.new ≡ after out.old (print.keyword keywords.Let ∷ print.Space ∷ print.name name.now ∷ print.assigned q.now)) }
    {
        out.push_str("let ")?;
        out.push_str(name)?;
        self.assigned(out, q)
    }

    fn meta_key(&self, out: &mut Text, found: &Option<Key>) -> Result<(), NoMemory>
        ensures { OnOk result (out.new ≡ after out.old (print.optional_key found.now)) }
    {
        match found {
            Some(found) => {
                out.push_str(" ")?;
                key(self.alloc, out, found)
            }
            None => Ok(()),
        }
    }

    fn metadata(&self, out: &mut Text, found: &Option<Key>, q: &Query) -> Result<(), NoMemory>
        requires { Prints self.now.room (F.pre self.now.query) (F.post self.now.query) }
        ensures { OnOk result (out.new ≡ after out.old (print.keyword keywords.Meta ∷ (print.optional_key found.now ++ print.assigned q.now))) }
    {
        out.push_str("meta")?;
        self.meta_key(out, found)?;
        self.assigned(out, q)
    }

    fn map_stmt(&self, out: &mut Text, stmt: &MapStmt) -> Result<(), NoMemory>
        requires { Prints self.now.room (F.pre self.now.query) (F.post self.now.query) }
        ensures { OnOk result (out.new ≡ after out.old (print.map_stmt stmt.now)) }
    {
        match stmt {
            MapStmt::Root { at: _, path, query } => self.root(out, path.as_slice(), query),
            MapStmt::Let { name, query } => self.variable(out, name.as_str(), query),
        }
    }

    /// A map's statements, each on a line of its own.
    fn body(&self, out: &mut Text, body: &[MapStmt]) -> Result<(), NoMemory>
        requires { Prints self.now.room (F.pre self.now.query) (F.post self.now.query) }
        ensures { OnOk result (out.new ≡ listed print.map_stmt (codes "\n  ") out.old body.now) }
    {
        let Some((first, rest)) = body.split_first() else {
            return Ok(());
        };
        self.map_stmt(out, first)?;
        for stmt in rest {
            out.push_str("\n  ")?;
            self.map_stmt(out, stmt)?;
        }
        Ok(())
    }

    fn definition(&self, out: &mut Text, name: &str, body: &[MapStmt]) -> Result<(), NoMemory>
        requires { Prints self.now.room (F.pre self.now.query) (F.post self.now.query) }
        ensures { OnOk result (out.new ≡ after out.old (print.keyword keywords.Map ∷ print.Space ∷ print.name name.now ∷ print.body (map print.map_stmt body.now))) }
    {
        out.push_str("map ")?;
        out.push_str(name)?;
        out.push_str(" {\n  ")?;
        self.body(out, body)?;
        out.push_str("\n}")
    }

    fn stmt(&self, out: &mut Text, stmt: &Stmt) -> Result<(), NoMemory>
        requires { Prints self.now.room (F.pre self.now.query) (F.post self.now.query) }
        ensures { OnOk result (out.new ≡ after out.old (print.stmt stmt.now)) }
    {
        match stmt {
            Stmt::Root {
                at: _,
                line: _,
                path,
                query,
            } => self.root(out, path.as_slice(), query),
            Stmt::Meta {
                line: _,
                key,
                query,
            } => self.metadata(out, key, query),
            Stmt::Let {
                line: _,
                name,
                query,
            } => self.variable(out, name.as_str(), query),
            Stmt::Map { at: _, name, body } => self.definition(out, name.as_str(), body.as_slice()),
        }
    }

    /// Statements, each on a line of its own.
    fn stmts(&self, out: &mut Text, stmts: &[Stmt]) -> Result<(), NoMemory>
        requires { Prints self.now.room (F.pre self.now.query) (F.post self.now.query) }
        ensures { OnOk result (out.new ≡ listed print.stmt (codes "\n") out.old stmts.now) }
    {
        let Some((first, rest)) = stmts.split_first() else {
            return Ok(());
        };
        self.stmt(out, first)?;
        for stmt in rest {
            out.push_str("\n")?;
            self.stmt(out, stmt)?;
        }
        Ok(())
    }

    /// A mapping.
    pub fn mapping(&self, out: &mut Text, mapping: &Mapping) -> Result<(), NoMemory>
        requires { Prints self.now.room (F.pre self.now.query) (F.post self.now.query) }
        ensures { OnOk result (out.new ≡ after out.old (print.mapping mapping.now)) }
    {
        match mapping {
            Mapping::Query { line: _, query } => self.query(out, query),
            Mapping::Statements(stmts) => self.stmts(out, stmts.as_slice()),
        }
    }
}
