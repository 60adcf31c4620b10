//! Statements, and mappings.

ghost use Rattle.std.specs.Prelude.{◌≡◌, true, is_some, Some, ◌++◌, IfOk};
ghost use Rattle.bt_lexer.specs.declared.token.Kind.TheVariants as kinds;
ghost use Rattle.bt_syntax.specs.Code.{Reads, Nests};
ghost use Rattle.bt_syntax.specs.Reading.{map_res, seq};
ghost use Rattle.bt_syntax.specs.Readers as spec;

use crate::cursor::Cursor;
use crate::grammar::Grammar;
use crate::keywords::Keyword;
use crate::stop::Stop;
use crate::targets::{is_target, target};
use bt_lexer::Kind;
use bt_tree::{Key, MapStmt, Mapping, Query, Stmt};
use sqlite_items::Items;
use std::alloc::Global;

/// A key behind a dot.
fn next_key(alloc: Global, c: &mut Cursor<'_>) -> Result<Key, Stop>
    ensures { Reads (spec.behind kinds.Dot spec.key c.old) result c.new }
{
    c.expect(Kind::Dot)?;
    c.key(alloc)
}

/// Keys, each behind a dot.
fn keys(alloc: Global, c: &mut Cursor<'_>) -> Result<Items<Key>, Stop>
    ensures { Reads (spec.keys c.old) result c.new }
{
    let mut found = Items::new(alloc);
    while c.sees(Kind::Dot) {
        let key = next_key(alloc, c)?;
        found.push(key)?;
    }
    Ok(found)
}

/// A key, where one comes next.
#[tactic(auto, unfolding(crate::specs::Readers::optional_key))]
fn optional_key(alloc: Global, c: &mut Cursor<'_>) -> Result<Option<Key>, Stop>
    ensures { Reads (spec.optional_key c.old) result c.new }
{
    if c.sees_key() {
        Ok(Some(c.key(alloc)?))
    } else {
        Ok(None)
    }
}

impl<F: Fn(Global, &mut Cursor<'_>, usize) -> Result<Query, Stop>> Grammar<F> {
    // ---- the statements of a map, which stand inside brackets

    #[tactic(auto, unfolding(crate::specs::Readers::map_root))]
    fn map_root(&self, c: &mut Cursor<'_>) -> Result<MapStmt, Stop>
        requires { Nests self.now.depth (F.pre self.now.query) (F.post self.now.query) }
        ensures { Reads (spec.map_root (spec.query self.now.depth) c.old) result c.new }
    {
        let at = c.at();
        c.expect_reserved(Keyword::Root)?;
        let path = keys(self.alloc, c)?;
        c.expect(Kind::Assign)?;
        let query = self.inner(c)?;
        Ok(MapStmt::Root { at, path, query })
    }

    #[tactic(auto, unfolding(crate::specs::Readers::map_let))]
    fn map_let(&self, c: &mut Cursor<'_>) -> Result<MapStmt, Stop>
        requires { Nests self.now.depth (F.pre self.now.query) (F.post self.now.query) }
        ensures { Reads (spec.map_let (spec.query self.now.depth) c.old) result c.new }
    {
        c.expect_reserved(Keyword::Let)?;
        let name = c.token_text(self.alloc, Kind::Name)?;
        c.expect(Kind::Assign)?;
        let query = self.inner(c)?;
        Ok(MapStmt::Let { name, query })
    }

    #[tactic(auto, unfolding(crate::specs::Readers::map_stmt))]
    fn map_stmt(&self, c: &mut Cursor<'_>) -> Result<MapStmt, Stop>
        requires { Nests self.now.depth (F.pre self.now.query) (F.post self.now.query) }
        ensures { Reads (spec.map_stmt (spec.query self.now.depth) c.old) result c.new }
    {
        if c.sees_reserved(Keyword::Root) {
            self.map_root(c)
        } else {
            self.map_let(c)
        }
    }

    fn next_map_stmt(&self, c: &mut Cursor<'_>) -> Result<MapStmt, Stop>
        requires { Nests self.now.depth (F.pre self.now.query) (F.post self.now.query) }
        ensures { Reads
            (seq (spec.passing spec.separates_statement) (λ _. spec.map_stmt (spec.query self.now.depth)) c.old)
            result c.new }
    {
        c.expect_statement_end()?;
        self.map_stmt(c)
    }

    fn more_map_stmts(
        &self,
        c: &mut Cursor<'_>,
        mut found: Items<MapStmt>,
    ) -> Result<Items<MapStmt>, Stop>
        requires { Nests self.now.depth (F.pre self.now.query) (F.post self.now.query) }
        ensures { let more = spec.separated_more spec.separates_statement (spec.map_stmt (spec.query self.now.depth)) in
            Reads (map_res (λ xs. found ++ xs) (more c.old)) result c.new }
    {
        while c.sees_statement_end() {
            let stmt = self.next_map_stmt(c)?;
            found.push(stmt)?;
        }
        Ok(found)
    }

    #[tactic(auto, unfolding(crate::specs::Readers::map_body))]
    fn map_body(&self, c: &mut Cursor<'_>) -> Result<Items<MapStmt>, Stop>
        requires { Nests self.now.depth (F.pre self.now.query) (F.post self.now.query) }
        ensures { Reads (spec.map_body (spec.query self.now.depth) c.old) result c.new }
    {
        let first = self.map_stmt(c)?;
        let mut found = Items::new(self.alloc);
        found.push(first)?;
        self.more_map_stmts(c, found)
    }

    // ---- statements

    /// `=` and what is assigned.
    #[tactic(auto, unfolding(crate::specs::Readers::assigned))]
    fn assigned(&self, c: &mut Cursor<'_>) -> Result<Query, Stop>
        requires { Nests self.now.depth (F.pre self.now.query) (F.post self.now.query) }
        ensures { Reads (spec.assigned (spec.query self.now.depth) c.old) result c.new }
    {
        c.expect(Kind::Assign)?;
        self.level(c)
    }

    #[tactic(auto, unfolding(crate::specs::Readers::root_stmt))]
    fn root_stmt(&self, c: &mut Cursor<'_>) -> Result<Stmt, Stop>
        requires { Nests self.now.depth (F.pre self.now.query) (F.post self.now.query) }
        ensures { Reads (spec.root_stmt (spec.query self.now.depth) c.old) result c.new }
    {
        let line = c.line();
        let at = c.at();
        c.expect_reserved(Keyword::Root)?;
        let path = keys(self.alloc, c)?;
        let query = self.assigned(c)?;
        Ok(Stmt::Root {
            at,
            line,
            path,
            query,
        })
    }

    #[tactic(auto, unfolding(crate::specs::Readers::meta_stmt))]
    fn meta_stmt(&self, c: &mut Cursor<'_>) -> Result<Stmt, Stop>
        requires { Nests self.now.depth (F.pre self.now.query) (F.post self.now.query) }
        ensures { Reads (spec.meta_stmt (spec.query self.now.depth) c.old) result c.new }
    {
        let line = c.line();
        c.expect_reserved(Keyword::Meta)?;
        let key = optional_key(self.alloc, c)?;
        let query = self.assigned(c)?;
        Ok(Stmt::Meta { line, key, query })
    }

    #[tactic(auto, unfolding(crate::specs::Readers::let_stmt))]
    fn let_stmt(&self, c: &mut Cursor<'_>) -> Result<Stmt, Stop>
        requires { Nests self.now.depth (F.pre self.now.query) (F.post self.now.query) }
        ensures { Reads (spec.let_stmt (spec.query self.now.depth) c.old) result c.new }
    {
        let line = c.line();
        c.expect_reserved(Keyword::Let)?;
        let name = c.token_text(self.alloc, Kind::Name)?;
        let query = self.assigned(c)?;
        Ok(Stmt::Let { line, name, query })
    }

    #[tactic(auto, unfolding(crate::specs::Readers::map_definition))]
    fn map_definition(&self, c: &mut Cursor<'_>) -> Result<Stmt, Stop>
        requires { Nests self.now.depth (F.pre self.now.query) (F.post self.now.query) }
        ensures { Reads (spec.map_definition (spec.query self.now.depth) c.old) result c.new }
    {
        let at = c.at();
        c.expect_reserved(Keyword::Map)?;
        let name = c.token_text(self.alloc, Kind::Name)?;
        c.expect(Kind::LeftBrace)?;
        let body = self.map_body(c)?;
        c.expect(Kind::RightBrace)?;
        Ok(Stmt::Map { at, name, body })
    }

    #[tactic(auto, unfolding(crate::specs::Readers::stmt))]
    fn stmt(&self, c: &mut Cursor<'_>) -> Result<Stmt, Stop>
        requires { Nests self.now.depth (F.pre self.now.query) (F.post self.now.query) }
        ensures { Reads (spec.stmt (spec.query self.now.depth) c.old) result c.new }
    {
        if c.sees_reserved(Keyword::Root) {
            return self.root_stmt(c);
        }
        if c.sees_reserved(Keyword::Meta) {
            return self.meta_stmt(c);
        }
        if c.sees_reserved(Keyword::Let) {
            return self.let_stmt(c);
        }
        self.map_definition(c)
    }

    fn next_stmt(&self, c: &mut Cursor<'_>) -> Result<Stmt, Stop>
        requires { Nests self.now.depth (F.pre self.now.query) (F.post self.now.query) }
        ensures { Reads
            (seq (spec.passing spec.separates_statement) (λ _. spec.stmt (spec.query self.now.depth)) c.old)
            result c.new }
    {
        c.expect_statement_end()?;
        self.stmt(c)
    }

    /// The statements behind those that were found.
    fn more_stmts(&self, c: &mut Cursor<'_>, mut found: Items<Stmt>) -> Result<Items<Stmt>, Stop>
        requires { Nests self.now.depth (F.pre self.now.query) (F.post self.now.query) }
        ensures { Reads
            (map_res (λ xs. found ++ xs) (spec.more_stmts (spec.query self.now.depth) c.old)) result c.new }
    {
        while c.sees_statement_end() {
            let stmt = self.next_stmt(c)?;
            found.push(stmt)?;
        }
        Ok(found)
    }

    #[tactic(auto, unfolding(crate::specs::Readers::statements))]
    fn statements(&self, c: &mut Cursor<'_>) -> Result<Items<Stmt>, Stop>
        requires { Nests self.now.depth (F.pre self.now.query) (F.post self.now.query) }
        ensures { Reads (spec.statements (spec.query self.now.depth) c.old) result c.new }
    {
        let first = self.stmt(c)?;
        let mut found = Items::new(self.alloc);
        found.push(first)?;
        self.more_stmts(c, found)
    }

    // ---- mappings

    /// What stands behind the target that a mapping begins with.
    #[tactic(auto, unfolding(crate::specs::Readers::assigned_first))]
    fn assigned_first(
        &self,
        c: &mut Cursor<'_>,
        line: u64,
        at: usize,
        path: Items<Key>,
    ) -> Result<Mapping, Stop>
        requires { Nests self.now.depth (F.pre self.now.query) (F.post self.now.query) }
        ensures { Reads
            (map_res (spec.finish line) (spec.assigned_first (spec.query self.now.depth) (at, path) c.old))
            result c.new }
    {
        let query = self.assigned(c)?;
        let mut found = Items::new(self.alloc);
        found.push(Stmt::Root {
            at,
            line,
            path,
            query,
        })?;
        let all = self.more_stmts(c, found)?;
        Ok(Mapping::Statements(all))
    }

    /// A mapping that begins as a query does.
    #[tactic(auto, unfolding(crate::specs::Readers::query_first))]
    fn query_first(&self, c: &mut Cursor<'_>, line: u64) -> Result<Mapping, Stop>
        requires { Nests self.now.depth (F.pre self.now.query) (F.post self.now.query) }
        ensures { Reads
            (map_res (spec.finish line) (spec.query_first (spec.query self.now.depth) c.old)) result c.new }
    {
        let query = self.level(c)?;
        if !c.sees(Kind::Assign) || !is_target(&query) {
            return Ok(Mapping::Query { line, query });
        }
        let (at, path) = target(self.alloc, query)?;
        self.assigned_first(c, line, at, path)
    }

    /// A mapping.
    #[tactic(auto, unfolding(crate::specs::Readers::mapping_by, crate::specs::Readers::draft))]
    pub fn mapping(&self, c: &mut Cursor<'_>) -> Result<Mapping, Stop>
        requires { Nests self.now.depth (F.pre self.now.query) (F.post self.now.query) }
        ensures { Reads (spec.mapping_by (spec.query self.now.depth) c.old) result c.new }
    {
        let line = c.line();
        if c.begins_statement() {
            Ok(Mapping::Statements(self.statements(c)?))
        } else {
            self.query_first(c, line)
        }
    }

    /// A mapping that is a query alone.
    #[tactic(auto, unfolding(crate::specs::Readers::check_by))]
    pub fn check(&self, c: &mut Cursor<'_>) -> Result<Mapping, Stop>
        requires { Nests self.now.depth (F.pre self.now.query) (F.post self.now.query) }
        ensures { Reads (spec.check_by (spec.query self.now.depth) c.old) result c.new }
    {
        let line = c.line();
        let query = self.level(c)?;
        Ok(Mapping::Query { line, query })
    }
}
