//! Arguments.

ghost use Rattle.std.specs.Prelude.{◌≡◌, Some, None, MatchResult};
ghost use Rattle.bt_lexer.specs.declared.token.Kind.TheVariants as kinds;
ghost use Rattle.bt_syntax.specs.Reading.{mapped};
ghost use Rattle.bt_syntax.specs.Code.{Reads, Nests};
ghost use Rattle.bt_syntax.specs.Readers as spec;

use crate::cursor::Cursor;
use crate::grammar::Grammar;
use crate::stop::Stop;
use bt_lexer::Kind;
use bt_ports::text::Text;
use bt_tree::{Arg, Query};
use sqlite_items::Items;
use std::alloc::Global;

/// The name that a query is, or the query.
fn bare_name(query: Query) -> Result<Text, Query>
    ensures { MatchResult result (λ u. spec.name_of query ≡ Some u)
        (λ q. (q ≡ query) × (spec.name_of query ≡ None)) }
{
    match query {
        Query::Name(name) => Ok(name.text),
        other => Err(other),
    }
}

impl<F: Fn(Global, &mut Cursor<'_>, usize) -> Result<Query, Stop>> Grammar<F> {
    /// What an arrow stands before, and the arrow.
    fn lambda(&self, c: &mut Cursor<'_>, name: Text) -> Result<Arg<Query>, Stop>
        requires { Nests self.now.depth (F.pre self.now.query) (F.post self.now.query) }
        ensures { Reads
            (mapped (Arg.Lambda name) (spec.behind kinds.Arrow (spec.query self.now.depth)) c.old)
            result c.new }
    {
        c.expect(Kind::Arrow)?;
        Ok(Arg::Lambda(name, self.inner(c)?))
    }

    /// A query, or a lambda where an arrow follows a name.
    #[tactic(auto, unfolding(crate::specs::Readers::arg))]
    pub fn arg(&self, c: &mut Cursor<'_>) -> Result<Arg<Query>, Stop>
        requires { Nests self.now.depth (F.pre self.now.query) (F.post self.now.query) }
        ensures { Reads (spec.arg (spec.query self.now.depth) c.old) result c.new }
    {
        let query = self.inner(c)?;
        if !c.sees(Kind::Arrow) {
            return Ok(Arg::Query(query));
        }
        match bare_name(query) {
            Ok(name) => self.lambda(c, name),
            Err(query) => Ok(Arg::Query(query)),
        }
    }

    /// Arguments up to the closing parenthesis.
    fn args_inside(&self, c: &mut Cursor<'_>) -> Result<Items<Arg<Query>>, Stop>
        requires { Nests self.now.depth (F.pre self.now.query) (F.post self.now.query) }
        ensures { Reads (spec.args_inside (spec.query self.now.depth) c.old) result c.new }
    {
        let mut found = Items::new(self.alloc);
        while c.sees_other(Kind::RightParen) {
            let arg = self.arg(c)?;
            found.push(arg)?;
            if !c.eat_comma() {
                return Ok(found);
            }
        }
        Ok(found)
    }

    /// Arguments in parentheses.
    #[tactic(auto, unfolding(crate::specs::Readers::args))]
    pub fn args(&self, c: &mut Cursor<'_>) -> Result<Items<Arg<Query>>, Stop>
        requires { Nests self.now.depth (F.pre self.now.query) (F.post self.now.query) }
        ensures { Reads (spec.args (spec.query self.now.depth) c.old) result c.new }
    {
        c.expect(Kind::LeftParen)?;
        let args = self.args_inside(c)?;
        c.expect(Kind::RightParen)?;
        Ok(args)
    }
}
