//! Queries by their forms.
ghost use Rattle.std.specs.Prelude.{◌≡◌, IfOk};
ghost use Rattle.bt_contexts.specs.Seen.{seen, out_of};
ghost use Rattle.bt_meaning.specs.Value.{value};
ghost use Rattle.bt_queries.specs.Serves.{Serves};

use bt_contexts::got::{key_text, named, own, root_out, this_out, variable};
use bt_contexts::operators::prefixed;
use bt_contexts::{Ctx, Got};
use bt_kinds::limited;
use bt_ports::NoMemory;
use bt_ports::text::Text;
use bt_tree::Query;
use bt_value::{Op, Out, Val, copy_members};
use std::alloc::Global;

/// Evaluates the parts of queries, by a function that evaluates whole ones.
#[derive(Clone, Copy)]
pub struct Evaluator<F> {
    /// Where memory comes from.
    pub alloc: Global,
    /// How many more queries may nest.
    pub room: usize,
    /// What evaluates a query where so many more may nest.
    pub eval: F,
}

impl<F: for<'a> Fn(Global, usize, &Query, &Ctx<'a>) -> Result<Got<'a>, NoMemory>> Evaluator<F> {
    /// What a query gives.
    pub fn eval<'a>(&self, q: &Query, c: &Ctx<'a>) -> Result<Got<'a>, NoMemory>
        requires { Serves self.now.room (F.pre self.now.eval) (F.post self.now.eval) }
        ensures { IfOk result (λ g. out_of g ≡ value q.now (seen c.now)) }
    {
        (self.eval)(self.alloc, self.room, q, c)
    }

    /// The same, copied where it stands in the context.
    pub fn out(&self, q: &Query, c: &Ctx<'_>) -> Result<Out, NoMemory>
        requires { Serves self.now.room (F.pre self.now.eval) (F.post self.now.eval) }
        ensures { IfOk result (λ o. o ≡ value q.now (seen c.now)) }
    {
        own(self.alloc, self.eval(q, c)?)
    }

    /// What a query gives, by its form.
    pub fn node<'a>(&self, q: &Query, c: &Ctx<'a>) -> Result<Got<'a>, NoMemory>
        requires { Serves self.now.room (F.pre self.now.eval) (F.post self.now.eval) }
        ensures { IfOk result (λ g. out_of g ≡ value q.now (seen c.now)) }
    {
        match q {
            Query::This => this_out(self.alloc, c),
            Query::Root(_) => root_out(self.alloc, c.root),
            Query::Name(w) => named(self.alloc, &w.text, c),
            Query::Var(w) => variable(self.alloc, c.vars, w.text.as_str()),
            Query::Meta(key) => match c.msg.meta.find(key_text(key)) {
                Some(v) => Ok(Got::Known(v)),
                None => Ok(Got::Made(Out::Value(Val::Null))),
            },
            Query::Paren(q) => self.eval(q.get(), c),
            Query::Item(q, xs) => self.item(q, xs, c),
            Query::Coalesce(q, qs) => self.coal(q, qs, c),
            Query::Match(target, cases) => self.matched(target, cases, c),
            Query::If(branches, last) => self.branches(branches, last, c),
            Query::Null => Ok(Got::Made(Out::Value(Val::Null))),
            Query::True => Ok(Got::Made(Out::Value(Val::Bool(true)))),
            Query::False => Ok(Got::Made(Out::Value(Val::Bool(false)))),
            Query::Int(n) => Ok(Got::Made(Out::Value(Val::Int(*n)))),
            Query::Quoted(w) => Ok(Got::Made(Out::Value(Val::Str(Text::make(
                self.alloc,
                w.text.as_str(),
            )?)))),
            Query::Metadata => {
                let all = copy_members(self.alloc, &c.msg.meta)?;
                Ok(Got::Made(limited(self.alloc, "@", Val::Obj(all))?))
            }
            Query::Call(w, args) => Ok(Got::Made(self.call(w.text.as_str(), args, c)?)),
            Query::List(qs) => Ok(Got::Made(self.list(qs, c)?)),
            Query::Object(xs) => Ok(Got::Made(self.object(xs, c)?)),
            Query::Prefix(op, q) => {
                let o = self.out(q.get(), c)?;
                Ok(Got::Made(prefixed(self.alloc, *op, o)?))
            }
            Query::Product(q, ts) => Ok(Got::Made(self.terms(q, ts, c)?)),
            Query::Sum(q, ts) => Ok(Got::Made(self.terms(q, ts, c)?)),
            Query::Compare(a, op, b) => Ok(Got::Made(self.compare(a.get(), *op, b.get(), c)?)),
            Query::And(q, qs) => Ok(Got::Made(self.logic(Op::And, false, q, qs, c)?)),
            Query::Or(q, qs) => Ok(Got::Made(self.logic(Op::Or, true, q, qs, c)?)),
        }
    }
}

/// What a query gives, where so many more may nest.
///
/// Besides real want of memory only a nesting past that is answered `NoMemory`: it keeps the stack.
pub fn eval_in<'a>(alloc: Global, room: usize, q: &Query, c: &Ctx<'a>) -> Result<Got<'a>, NoMemory>
    ensures { IfOk result (λ g. out_of g ≡ value q.now (seen c.now)) }
{
    if room == 0 {
        return Err(NoMemory);
    }
    Evaluator {
        alloc,
        room: room - 1,
        eval: eval_in,
    }
    .node(q, c)
}

/// How many queries may nest.
const ROOM: usize = 1024;

/// What a query gives in a context.
///
/// A result that isn't made anew is borrowed from the context. At most 1,024 queries nest, those of
/// maps included: a deeper nesting is answered `NoMemory`.
pub fn eval<'a>(alloc: Global, q: &Query, c: &Ctx<'a>) -> Result<Got<'a>, NoMemory>
    ensures { IfOk result (λ g. out_of g ≡ value q.now (seen c.now)) }
{
    eval_in(alloc, ROOM, q, c)
}
