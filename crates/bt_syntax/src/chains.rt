//! Operators: chains of operands, from prefixes up to `|`.

ghost use Rattle.std.specs.Prelude.{◌≡◌, IfOk};
ghost use Rattle.bt_lexer.specs.declared.token.Kind.TheVariants as kinds;
ghost use Rattle.bt_syntax.specs.Code.{Reads, Nests};
ghost use Rattle.bt_syntax.specs.Readers as spec;

use crate::cursor::Cursor;
use crate::grammar::Grammar;
use crate::stop::Stop;
use bt_lexer::Kind;
use bt_tree::{Query, Term};
use sqlite_items::{Boxed, Items};
use std::alloc::{AllocError, Global};

fn product_of(alloc: Global, first: Query, more: Items<Term<Query>>) -> Result<Query, AllocError>
    ensures { IfOk result (λ q. q ≡ spec.product_of first more) }
{
    if more.is_empty() {
        return Ok(first);
    }
    Ok(Query::Product(Boxed::new(alloc, first)?, more))
}

fn sum_of(alloc: Global, first: Query, more: Items<Term<Query>>) -> Result<Query, AllocError>
    ensures { IfOk result (λ q. q ≡ spec.sum_of first more) }
{
    if more.is_empty() {
        return Ok(first);
    }
    Ok(Query::Sum(Boxed::new(alloc, first)?, more))
}

fn or_of(alloc: Global, first: Query, more: Items<Query>) -> Result<Query, AllocError>
    ensures { IfOk result (λ q. q ≡ spec.or_of first more) }
{
    if more.is_empty() {
        return Ok(first);
    }
    Ok(Query::Or(Boxed::new(alloc, first)?, more))
}

fn coalesce_of(alloc: Global, first: Query, more: Items<Query>) -> Result<Query, AllocError>
    ensures { IfOk result (λ q. q ≡ spec.coalesce_of first more) }
{
    if more.is_empty() {
        return Ok(first);
    }
    Ok(Query::Coalesce(Boxed::new(alloc, first)?, more))
}

/// Whether a query is no chain of operands.
fn is_unary(query: &Query) -> bool
    ensures { result ≡ spec.is_unary query.now }
{
    !matches!(
        query,
        Query::Product(..) | Query::Sum(..) | Query::Compare(..) | Query::And(..) | Query::Or(..)
    )
}

impl<F: Fn(Global, &mut Cursor<'_>, usize) -> Result<Query, Stop>> Grammar<F> {
    #[tactic(auto, unfolding(crate::specs::Readers::prefixed))]
    fn prefixed(&self, c: &mut Cursor<'_>) -> Result<Query, Stop>
        requires { Nests self.now.depth (F.pre self.now.query) (F.post self.now.query) }
        ensures { Reads (spec.prefixed (spec.query self.now.depth) c.old) result c.new }
    {
        let op = c.prefix_op()?;
        let item = self.item(c)?;
        Ok(Query::Prefix(op, Boxed::new(self.alloc, item)?))
    }

    /// An item, and perhaps an operator before it.
    #[tactic(auto, unfolding(crate::specs::Readers::unary))]
    fn unary(&self, c: &mut Cursor<'_>) -> Result<Query, Stop>
        requires { Nests self.now.depth (F.pre self.now.query) (F.post self.now.query) }
        ensures { Reads (spec.unary (spec.query self.now.depth) c.old) result c.new }
    {
        if c.sees_prefix() {
            self.prefixed(c)
        } else {
            self.item(c)
        }
    }

    #[tactic(auto, unfolding(crate::specs::Readers::factor))]
    fn factor(&self, c: &mut Cursor<'_>) -> Result<Term<Query>, Stop>
        requires { Nests self.now.depth (F.pre self.now.query) (F.post self.now.query) }
        ensures { Reads (spec.factor (spec.query self.now.depth) c.old) result c.new }
    {
        let op = c.product_op()?;
        let query = self.unary(c)?;
        Ok(Term { op, query })
    }

    fn factors(&self, c: &mut Cursor<'_>) -> Result<Items<Term<Query>>, Stop>
        requires { Nests self.now.depth (F.pre self.now.query) (F.post self.now.query) }
        ensures { Reads (spec.factors (spec.query self.now.depth) c.old) result c.new }
    {
        let mut found = Items::new(self.alloc);
        while c.sees_product() {
            let factor = self.factor(c)?;
            found.push(factor)?;
        }
        Ok(found)
    }

    #[tactic(auto, unfolding(crate::specs::Readers::product))]
    fn product(&self, c: &mut Cursor<'_>) -> Result<Query, Stop>
        requires { Nests self.now.depth (F.pre self.now.query) (F.post self.now.query) }
        ensures { Reads (spec.product (spec.query self.now.depth) c.old) result c.new }
    {
        let first = self.unary(c)?;
        let more = self.factors(c)?;
        Ok(product_of(self.alloc, first, more)?)
    }

    #[tactic(auto, unfolding(crate::specs::Readers::term))]
    fn term(&self, c: &mut Cursor<'_>) -> Result<Term<Query>, Stop>
        requires { Nests self.now.depth (F.pre self.now.query) (F.post self.now.query) }
        ensures { Reads (spec.term (spec.query self.now.depth) c.old) result c.new }
    {
        let op = c.sum_op()?;
        let query = self.product(c)?;
        Ok(Term { op, query })
    }

    fn terms(&self, c: &mut Cursor<'_>) -> Result<Items<Term<Query>>, Stop>
        requires { Nests self.now.depth (F.pre self.now.query) (F.post self.now.query) }
        ensures { Reads (spec.terms (spec.query self.now.depth) c.old) result c.new }
    {
        let mut found = Items::new(self.alloc);
        while c.sees_sum() {
            let term = self.term(c)?;
            found.push(term)?;
        }
        Ok(found)
    }

    #[tactic(auto, unfolding(crate::specs::Readers::sum))]
    fn sum(&self, c: &mut Cursor<'_>) -> Result<Query, Stop>
        requires { Nests self.now.depth (F.pre self.now.query) (F.post self.now.query) }
        ensures { Reads (spec.sum (spec.query self.now.depth) c.old) result c.new }
    {
        let first = self.product(c)?;
        let more = self.terms(c)?;
        Ok(sum_of(self.alloc, first, more)?)
    }

    /// A comparison's operator and its right side.
    #[tactic(auto, unfolding(crate::specs::Readers::compared))]
    fn compared(&self, c: &mut Cursor<'_>, left: Query) -> Result<Query, Stop>
        requires { Nests self.now.depth (F.pre self.now.query) (F.post self.now.query) }
        ensures { Reads (spec.compared (spec.query self.now.depth) left c.old) result c.new }
    {
        let op = c.comparison_op()?;
        let right = self.sum(c)?;
        Ok(Query::Compare(
            Boxed::new(self.alloc, left)?,
            op,
            Boxed::new(self.alloc, right)?,
        ))
    }

    #[tactic(auto, unfolding(crate::specs::Readers::comparison))]
    fn comparison(&self, c: &mut Cursor<'_>) -> Result<Query, Stop>
        requires { Nests self.now.depth (F.pre self.now.query) (F.post self.now.query) }
        ensures { Reads (spec.comparison (spec.query self.now.depth) c.old) result c.new }
    {
        let left = self.sum(c)?;
        if c.sees_comparison() {
            self.compared(c, left)
        } else {
            Ok(left)
        }
    }

    fn and(&self, c: &mut Cursor<'_>) -> Result<Query, Stop>
        requires { Nests self.now.depth (F.pre self.now.query) (F.post self.now.query) }
        ensures { Reads
            (spec.behind kinds.And (spec.comparison (spec.query self.now.depth)) c.old) result c.new }
    {
        c.expect(Kind::And)?;
        self.comparison(c)
    }

    fn ands(&self, c: &mut Cursor<'_>) -> Result<Items<Query>, Stop>
        requires { Nests self.now.depth (F.pre self.now.query) (F.post self.now.query) }
        ensures { Reads (spec.ands (spec.query self.now.depth) c.old) result c.new }
    {
        let mut found = Items::new(self.alloc);
        while c.sees(Kind::And) {
            let operand = self.and(c)?;
            found.push(operand)?;
        }
        Ok(found)
    }

    fn or(&self, c: &mut Cursor<'_>) -> Result<Query, Stop>
        requires { Nests self.now.depth (F.pre self.now.query) (F.post self.now.query) }
        ensures { Reads
            (spec.behind kinds.Or (spec.comparison (spec.query self.now.depth)) c.old) result c.new }
    {
        c.expect(Kind::Or)?;
        self.comparison(c)
    }

    fn ors(&self, c: &mut Cursor<'_>) -> Result<Items<Query>, Stop>
        requires { Nests self.now.depth (F.pre self.now.query) (F.post self.now.query) }
        ensures { Reads (spec.ors (spec.query self.now.depth) c.old) result c.new }
    {
        let mut found = Items::new(self.alloc);
        while c.sees(Kind::Or) {
            let operand = self.or(c)?;
            found.push(operand)?;
        }
        Ok(found)
    }

    #[tactic(auto, unfolding(crate::specs::Readers::logic))]
    fn logic(&self, c: &mut Cursor<'_>) -> Result<Query, Stop>
        requires { Nests self.now.depth (F.pre self.now.query) (F.post self.now.query) }
        ensures { Reads (spec.logic (spec.query self.now.depth) c.old) result c.new }
    {
        let first = self.comparison(c)?;
        let more = self.ands(c)?;
        if !more.is_empty() {
            return Ok(Query::And(Boxed::new(self.alloc, first)?, more));
        }
        let more = self.ors(c)?;
        Ok(or_of(self.alloc, first, more)?)
    }

    fn pipe(&self, c: &mut Cursor<'_>) -> Result<Query, Stop>
        requires { Nests self.now.depth (F.pre self.now.query) (F.post self.now.query) }
        ensures { Reads
            (spec.behind kinds.Pipe (spec.unary (spec.query self.now.depth)) c.old) result c.new }
    {
        c.expect(Kind::Pipe)?;
        self.unary(c)
    }

    fn pipes(&self, c: &mut Cursor<'_>) -> Result<Items<Query>, Stop>
        requires { Nests self.now.depth (F.pre self.now.query) (F.post self.now.query) }
        ensures { Reads (spec.pipes (spec.query self.now.depth) c.old) result c.new }
    {
        let mut found = Items::new(self.alloc);
        while c.sees(Kind::Pipe) {
            let operand = self.pipe(c)?;
            found.push(operand)?;
        }
        Ok(found)
    }

    /// A query that is neither a `match` nor an `if`.
    #[tactic(auto, unfolding(crate::specs::Readers::plain))]
    pub fn plain(&self, c: &mut Cursor<'_>) -> Result<Query, Stop>
        requires { Nests self.now.depth (F.pre self.now.query) (F.post self.now.query) }
        ensures { Reads (spec.plain (spec.query self.now.depth) c.old) result c.new }
    {
        let first = self.logic(c)?;
        if !is_unary(&first) {
            return Ok(first);
        }
        let more = self.pipes(c)?;
        Ok(coalesce_of(self.alloc, first, more)?)
    }
}
