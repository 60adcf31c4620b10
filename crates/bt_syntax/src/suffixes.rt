//! Items: heads and the suffixes behind them.

ghost use Rattle.std.specs.Prelude.{◌≡◌, IfOk};
ghost use Rattle.bt_syntax.specs.Code.{Reads, Nests};
ghost use Rattle.bt_syntax.specs.Readers as spec;

use crate::cursor::Cursor;
use crate::grammar::Grammar;
use crate::stop::Stop;
use bt_lexer::Kind;
use bt_tree::{Query, Suffix};
use sqlite_items::{Boxed, Items};
use std::alloc::{AllocError, Global};

fn item_of(alloc: Global, head: Query, suffixes: Items<Suffix<Query>>) -> Result<Query, AllocError>
    ensures { IfOk result (λ q. q ≡ spec.item_of head suffixes) }
{
    if suffixes.is_empty() {
        return Ok(head);
    }
    Ok(Query::Item(Boxed::new(alloc, head)?, suffixes))
}

impl<F: Fn(Global, &mut Cursor<'_>, usize) -> Result<Query, Stop>> Grammar<F> {
    #[tactic(auto, unfolding(crate::specs::Readers::within))]
    fn within(&self, c: &mut Cursor<'_>) -> Result<Suffix<Query>, Stop>
        requires { Nests self.now.depth (F.pre self.now.query) (F.post self.now.query) }
        ensures { Reads (spec.within (spec.query self.now.depth) c.old) result c.new }
    {
        c.expect(Kind::LeftParen)?;
        let arg = self.arg(c)?;
        c.expect(Kind::RightParen)?;
        Ok(Suffix::Within(arg))
    }

    /// A name, or a method where a parenthesis follows.
    #[tactic(auto, unfolding(crate::specs::Readers::named_suffix))]
    fn named_suffix(&self, c: &mut Cursor<'_>) -> Result<Suffix<Query>, Stop>
        requires { Nests self.now.depth (F.pre self.now.query) (F.post self.now.query) }
        ensures { Reads (spec.named_suffix (spec.query self.now.depth) c.old) result c.new }
    {
        let name = c.free_name(self.alloc)?;
        if c.sees(Kind::LeftParen) {
            Ok(Suffix::Method(name, self.args(c)?))
        } else {
            Ok(Suffix::Name(name.text))
        }
    }

    #[tactic(auto, unfolding(crate::specs::Readers::after_dot))]
    fn after_dot(&self, c: &mut Cursor<'_>) -> Result<Suffix<Query>, Stop>
        requires { Nests self.now.depth (F.pre self.now.query) (F.post self.now.query) }
        ensures { Reads (spec.after_dot (spec.query self.now.depth) c.old) result c.new }
    {
        if c.sees(Kind::LeftParen) {
            return self.within(c);
        }
        if c.sees_free_name() {
            return self.named_suffix(c);
        }
        c.segment(self.alloc)
    }

    #[tactic(auto, unfolding(crate::specs::Readers::suffix))]
    fn suffix(&self, c: &mut Cursor<'_>) -> Result<Suffix<Query>, Stop>
        requires { Nests self.now.depth (F.pre self.now.query) (F.post self.now.query) }
        ensures { Reads (spec.suffix (spec.query self.now.depth) c.old) result c.new }
    {
        c.expect(Kind::Dot)?;
        self.after_dot(c)
    }

    fn suffixes(&self, c: &mut Cursor<'_>) -> Result<Items<Suffix<Query>>, Stop>
        requires { Nests self.now.depth (F.pre self.now.query) (F.post self.now.query) }
        ensures { Reads (spec.suffixes (spec.query self.now.depth) c.old) result c.new }
    {
        let mut found = Items::new(self.alloc);
        while c.sees(Kind::Dot) {
            let suffix = self.suffix(c)?;
            found.push(suffix)?;
        }
        Ok(found)
    }

    /// A head and its suffixes.
    #[tactic(auto, unfolding(crate::specs::Readers::item))]
    pub fn item(&self, c: &mut Cursor<'_>) -> Result<Query, Stop>
        requires { Nests self.now.depth (F.pre self.now.query) (F.post self.now.query) }
        ensures { Reads (spec.item (spec.query self.now.depth) c.old) result c.new }
    {
        let head = self.head(c)?;
        let suffixes = self.suffixes(c)?;
        Ok(item_of(self.alloc, head, suffixes)?)
    }
}
