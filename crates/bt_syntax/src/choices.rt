//! `match` and `if`, and queries as a whole.

ghost use Rattle.std.specs.Prelude.{Some, ◌++◌};
ghost use Rattle.bt_syntax.specs.Code.{Reads, Nests};
ghost use Rattle.bt_syntax.specs.Reading.{map_res, mapped, seq};
ghost use Rattle.bt_syntax.specs.Readers as spec;

use crate::cursor::Cursor;
use crate::grammar::Grammar;
use crate::keywords::Keyword;
use crate::stop::Stop;
use bt_lexer::Kind;
use bt_tree::{Branch, Case, Query};
use sqlite_items::{Boxed, Items};
use std::alloc::Global;

impl<F: Fn(Global, &mut Cursor<'_>, usize) -> Result<Query, Stop>> Grammar<F> {
    #[tactic(auto, unfolding(crate::specs::Readers::any_case))]
    fn any_case(&self, c: &mut Cursor<'_>) -> Result<Case<Query>, Stop>
        requires { Nests self.now.depth (F.pre self.now.query) (F.post self.now.query) }
        ensures { Reads (spec.any_case (spec.query self.now.depth) c.old) result c.new }
    {
        c.expect_reserved(Keyword::Underscore)?;
        c.expect(Kind::FatArrow)?;
        Ok(Case::Any(self.inner(c)?))
    }

    #[tactic(auto, unfolding(crate::specs::Readers::when_case))]
    fn when_case(&self, c: &mut Cursor<'_>) -> Result<Case<Query>, Stop>
        requires { Nests self.now.depth (F.pre self.now.query) (F.post self.now.query) }
        ensures { Reads (spec.when_case (spec.query self.now.depth) c.old) result c.new }
    {
        let test = self.inner(c)?;
        c.expect(Kind::FatArrow)?;
        Ok(Case::When(test, self.inner(c)?))
    }

    #[tactic(auto, unfolding(crate::specs::Readers::one_case))]
    fn one_case(&self, c: &mut Cursor<'_>) -> Result<Case<Query>, Stop>
        requires { Nests self.now.depth (F.pre self.now.query) (F.post self.now.query) }
        ensures { Reads (spec.one_case (spec.query self.now.depth) c.old) result c.new }
    {
        if c.sees_reserved(Keyword::Underscore) {
            self.any_case(c)
        } else {
            self.when_case(c)
        }
    }

    /// A case behind what separates it from the one before.
    fn next_case(&self, c: &mut Cursor<'_>) -> Result<Case<Query>, Stop>
        requires { Nests self.now.depth (F.pre self.now.query) (F.post self.now.query) }
        ensures { Reads
            (seq (spec.passing spec.separates_case) (λ _. spec.one_case (spec.query self.now.depth)) c.old)
            result c.new }
    {
        c.expect_case_end()?;
        self.one_case(c)
    }

    /// The cases behind those that were found.
    fn more_cases(
        &self,
        c: &mut Cursor<'_>,
        mut found: Items<Case<Query>>,
    ) -> Result<Items<Case<Query>>, Stop>
        requires { Nests self.now.depth (F.pre self.now.query) (F.post self.now.query) }
        ensures { let more = spec.separated_more spec.separates_case (spec.one_case (spec.query self.now.depth)) in
            Reads (map_res (λ xs. found ++ xs) (more c.old)) result c.new }
    {
        while c.sees_case_end() {
            let case = self.next_case(c)?;
            found.push(case)?;
        }
        Ok(found)
    }

    #[tactic(auto, unfolding(crate::specs::Readers::cases))]
    fn cases(&self, c: &mut Cursor<'_>) -> Result<Items<Case<Query>>, Stop>
        requires { Nests self.now.depth (F.pre self.now.query) (F.post self.now.query) }
        ensures { Reads (spec.cases (spec.query self.now.depth) c.old) result c.new }
    {
        let first = self.one_case(c)?;
        let mut found = Items::new(self.alloc);
        found.push(first)?;
        self.more_cases(c, found)
    }

    /// What is matched, where the cases don't follow at once.
    #[tactic(auto, unfolding(crate::specs::Readers::subject))]
    fn subject(&self, c: &mut Cursor<'_>) -> Result<Option<Boxed<Query>>, Stop>
        requires { Nests self.now.depth (F.pre self.now.query) (F.post self.now.query) }
        ensures { Reads (spec.subject (spec.query self.now.depth) c.old) result c.new }
    {
        if c.sees_other(Kind::LeftBrace) {
            let query = self.plain(c)?;
            Ok(Some(Boxed::new(self.alloc, query)?))
        } else {
            Ok(None)
        }
    }

    #[tactic(auto, unfolding(crate::specs::Readers::match_query))]
    fn match_query(&self, c: &mut Cursor<'_>) -> Result<Query, Stop>
        requires { Nests self.now.depth (F.pre self.now.query) (F.post self.now.query) }
        ensures { Reads (spec.match_query (spec.query self.now.depth) c.old) result c.new }
    {
        c.expect_reserved(Keyword::Match)?;
        let subject = self.subject(c)?;
        c.expect(Kind::LeftBrace)?;
        let cases = self.cases(c)?;
        c.expect(Kind::RightBrace)?;
        Ok(Query::Match(subject, cases))
    }

    /// A query in braces.
    #[tactic(auto, unfolding(crate::specs::Readers::block))]
    fn block(&self, c: &mut Cursor<'_>) -> Result<Query, Stop>
        requires { Nests self.now.depth (F.pre self.now.query) (F.post self.now.query) }
        ensures { Reads (spec.block (spec.query self.now.depth) c.old) result c.new }
    {
        c.expect(Kind::LeftBrace)?;
        let query = self.inner(c)?;
        c.expect(Kind::RightBrace)?;
        Ok(query)
    }

    /// `if`, a condition and its block.
    #[tactic(auto, unfolding(crate::specs::Readers::if_tested, crate::specs::Readers::tested))]
    fn if_tested(&self, c: &mut Cursor<'_>) -> Result<Branch<Query>, Stop>
        requires { Nests self.now.depth (F.pre self.now.query) (F.post self.now.query) }
        ensures { Reads (spec.if_tested (spec.query self.now.depth) c.old) result c.new }
    {
        c.expect_reserved(Keyword::If)?;
        let test = self.plain(c)?;
        let gives = self.block(c)?;
        Ok(Branch { test, gives })
    }

    /// The block of an `else`, which is the last.
    fn last(&self, c: &mut Cursor<'_>, branches: Items<Branch<Query>>) -> Result<Query, Stop>
        requires { Nests self.now.depth (F.pre self.now.query) (F.post self.now.query) }
        ensures { Reads
            (mapped (λ q. Query.If branches (Some q)) (spec.block (spec.query self.now.depth)) c.old)
            result c.new }
    {
        let query = self.block(c)?;
        Ok(Query::If(branches, Some(Boxed::new(self.alloc, query)?)))
    }

    /// What stands behind the first condition and its block.
    fn elses(&self, c: &mut Cursor<'_>, first: Branch<Query>) -> Result<Query, Stop>
        requires { Nests self.now.depth (F.pre self.now.query) (F.post self.now.query) }
        ensures { Reads (map_res (spec.if_of first) (spec.elses (spec.query self.now.depth) c.old)) result c.new }
    {
        let mut branches = Items::new(self.alloc);
        branches.push(first)?;
        while c.sees_reserved(Keyword::Else) {
            c.expect_reserved(Keyword::Else)?;
            if !c.sees_reserved(Keyword::If) {
                return self.last(c, branches);
            }
            let branch = self.if_tested(c)?;
            branches.push(branch)?;
        }
        Ok(Query::If(branches, None))
    }

    #[tactic(auto, unfolding(crate::specs::Readers::if_query))]
    fn if_query(&self, c: &mut Cursor<'_>) -> Result<Query, Stop>
        requires { Nests self.now.depth (F.pre self.now.query) (F.post self.now.query) }
        ensures { Reads (spec.if_query (spec.query self.now.depth) c.old) result c.new }
    {
        let first = self.if_tested(c)?;
        self.elses(c, first)
    }

    /// A query, inside as many brackets as the grammar's.
    #[tactic(auto, unfolding(crate::specs::Readers::query_by))]
    pub fn level(&self, c: &mut Cursor<'_>) -> Result<Query, Stop>
        requires { Nests self.now.depth (F.pre self.now.query) (F.post self.now.query) }
        ensures { Reads (spec.query_by (spec.query self.now.depth) c.old) result c.new }
    {
        if c.sees_reserved(Keyword::Match) {
            return self.match_query(c);
        }
        if c.sees_reserved(Keyword::If) {
            return self.if_query(c);
        }
        self.plain(c)
    }
}
