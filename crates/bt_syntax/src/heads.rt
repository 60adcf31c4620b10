//! Heads: what a chain of suffixes begins with.

ghost use Rattle.bt_syntax.specs.Code.{Reads, Nests};
ghost use Rattle.bt_syntax.specs.Readers as spec;

use crate::cursor::Cursor;
use crate::grammar::Grammar;
use crate::keywords::Keyword;
use crate::stop::Stop;
use bt_lexer::Kind;
use bt_tree::{Member, Query};
use sqlite_items::{Boxed, Items};
use std::alloc::Global;

impl<F: Fn(Global, &mut Cursor<'_>, usize) -> Result<Query, Stop>> Grammar<F> {
    #[tactic(auto, unfolding(crate::specs::Readers::parens))]
    fn parens(&self, c: &mut Cursor<'_>) -> Result<Query, Stop>
        requires { Nests self.now.depth (F.pre self.now.query) (F.post self.now.query) }
        ensures { Reads (spec.parens (spec.query self.now.depth) c.old) result c.new }
    {
        c.expect(Kind::LeftParen)?;
        let query = self.inner(c)?;
        c.expect(Kind::RightParen)?;
        Ok(Query::Paren(Boxed::new(self.alloc, query)?))
    }

    fn items_inside(&self, c: &mut Cursor<'_>) -> Result<Items<Query>, Stop>
        requires { Nests self.now.depth (F.pre self.now.query) (F.post self.now.query) }
        ensures { Reads (spec.items_inside (spec.query self.now.depth) c.old) result c.new }
    {
        let mut found = Items::new(self.alloc);
        while c.sees_other(Kind::RightBracket) {
            let item = self.inner(c)?;
            found.push(item)?;
            if !c.eat_comma() {
                return Ok(found);
            }
        }
        Ok(found)
    }

    #[tactic(auto, unfolding(crate::specs::Readers::list_head))]
    fn list_head(&self, c: &mut Cursor<'_>) -> Result<Query, Stop>
        requires { Nests self.now.depth (F.pre self.now.query) (F.post self.now.query) }
        ensures { Reads (spec.list_head (spec.query self.now.depth) c.old) result c.new }
    {
        c.expect(Kind::LeftBracket)?;
        let items = self.items_inside(c)?;
        c.expect(Kind::RightBracket)?;
        Ok(Query::List(items))
    }

    #[tactic(auto, unfolding(crate::specs::Readers::member))]
    fn member(&self, c: &mut Cursor<'_>) -> Result<Member<Query>, Stop>
        requires { Nests self.now.depth (F.pre self.now.query) (F.post self.now.query) }
        ensures { Reads (spec.member (spec.query self.now.depth) c.old) result c.new }
    {
        let key = c.token_text(self.alloc, Kind::Text)?;
        c.expect(Kind::Colon)?;
        let query = self.inner(c)?;
        Ok(Member { key, query })
    }

    fn members_inside(&self, c: &mut Cursor<'_>) -> Result<Items<Member<Query>>, Stop>
        requires { Nests self.now.depth (F.pre self.now.query) (F.post self.now.query) }
        ensures { Reads (spec.members_inside (spec.query self.now.depth) c.old) result c.new }
    {
        let mut found = Items::new(self.alloc);
        while c.sees_other(Kind::RightBrace) {
            let member = self.member(c)?;
            found.push(member)?;
            if !c.eat_comma() {
                return Ok(found);
            }
        }
        Ok(found)
    }

    #[tactic(auto, unfolding(crate::specs::Readers::object_head))]
    fn object_head(&self, c: &mut Cursor<'_>) -> Result<Query, Stop>
        requires { Nests self.now.depth (F.pre self.now.query) (F.post self.now.query) }
        ensures { Reads (spec.object_head (spec.query self.now.depth) c.old) result c.new }
    {
        c.expect(Kind::LeftBrace)?;
        let members = self.members_inside(c)?;
        c.expect(Kind::RightBrace)?;
        Ok(Query::Object(members))
    }

    #[tactic(auto, unfolding(crate::specs::Readers::metadata))]
    fn metadata(&self, c: &mut Cursor<'_>) -> Result<Query, Stop>
        requires { Nests self.now.depth (F.pre self.now.query) (F.post self.now.query) }
        ensures { Reads (spec.metadata (spec.query self.now.depth) c.old) result c.new }
    {
        c.expect(Kind::At)?;
        if c.sees_key() {
            Ok(Query::Meta(c.key(self.alloc)?))
        } else {
            Ok(Query::Metadata)
        }
    }

    /// A name alone, or a call.
    #[tactic(auto, unfolding(crate::specs::Readers::named))]
    fn named(&self, c: &mut Cursor<'_>) -> Result<Query, Stop>
        requires { Nests self.now.depth (F.pre self.now.query) (F.post self.now.query) }
        ensures { Reads (spec.named (spec.query self.now.depth) c.old) result c.new }
    {
        let name = c.free_name(self.alloc)?;
        if c.sees(Kind::LeftParen) {
            Ok(Query::Call(name, self.args(c)?))
        } else {
            Ok(Query::Name(name))
        }
    }

    /// `meta`, which can only be called.
    #[tactic(auto, unfolding(crate::specs::Readers::meta_call))]
    fn meta_call(&self, c: &mut Cursor<'_>) -> Result<Query, Stop>
        requires { Nests self.now.depth (F.pre self.now.query) (F.post self.now.query) }
        ensures { Reads (spec.meta_call (spec.query self.now.depth) c.old) result c.new }
    {
        let name = c.reserved_word(self.alloc, Keyword::Meta)?;
        Ok(Query::Call(name, self.args(c)?))
    }

    /// A head.
    #[tactic(auto, unfolding(crate::specs::Readers::head, crate::specs::Readers::token_alone))]
    pub fn head(&self, c: &mut Cursor<'_>) -> Result<Query, Stop>
        requires { Nests self.now.depth (F.pre self.now.query) (F.post self.now.query) }
        ensures { Reads (spec.head (spec.query self.now.depth) c.old) result c.new }
    {
        if c.sees(Kind::LeftParen) {
            return self.parens(c);
        }
        if c.sees(Kind::LeftBracket) {
            return self.list_head(c);
        }
        if c.sees(Kind::LeftBrace) {
            return self.object_head(c);
        }
        if c.sees(Kind::At) {
            return self.metadata(c);
        }
        if c.sees_free_name() {
            return self.named(c);
        }
        if c.sees_reserved(Keyword::Meta) {
            return self.meta_call(c);
        }
        c.token_head(self.alloc)
    }
}
