//! Lists, objects, and chains of operands.
ghost use Rattle.std.specs.Prelude.{◌≡◌, IfOk};
ghost use Rattle.bt_contexts.specs.Seen.{seen, out_of};
ghost use Rattle.bt_meaning.specs.Operators as spec;
ghost use Rattle.bt_meaning.specs.Value.{value};
ghost use Rattle.bt_queries.specs.Serves.{Serves};
ghost use Rattle.bt_queries.specs.Views as views;

use crate::evaluator::Evaluator;
use bt_contexts::got::{decides, out_failed, push, settles};
use bt_contexts::operators::operands;
use bt_contexts::{Ctx, Got};
use bt_kinds::limited;
use bt_kinds::moving::put;
use bt_ports::NoMemory;
use bt_tree::{Member, Query, Term};
use bt_value::{Fields, Op, Out, Val};
use sqlite_items::{Boxed, Items};
use std::alloc::Global;

impl<F: for<'a> Fn(Global, usize, &Query, &Ctx<'a>) -> Result<Got<'a>, NoMemory>> Evaluator<F> {
    /// What a list gives.
    #[inline(never)]
    #[tactic(auto, using(crate::proofs::Loops::after_nothing, crate::proofs::Loops::after_one))]
    pub fn list(&self, qs: &Items<Query>, c: &Ctx<'_>) -> Result<Out, NoMemory>
        requires { Serves self.now.room (F.pre self.now.eval) (F.post self.now.eval) }
        ensures { IfOk result (λ o. o ≡ views.list_value qs.now (seen c.now)) }
    {
        let mut got = Items::new(self.alloc);
        for q in qs.as_slice() {
            match self.out(q, c)? {
                Out::Value(v) => push(&mut got, v)?,
                Out::Failed(t) => return Ok(Out::Failed(t)),
                Out::Deleted => {}
                Out::Nothing => {}
            }
        }
        limited(self.alloc, "literal", Val::Arr(got))
    }

    /// What an object gives.
    #[inline(never)]
    pub fn object(&self, xs: &Items<Member<Query>>, c: &Ctx<'_>) -> Result<Out, NoMemory>
        requires { Serves self.now.room (F.pre self.now.eval) (F.post self.now.eval) }
        ensures { IfOk result (λ o. o ≡ views.object_value xs.now (seen c.now)) }
    {
        let mut got = Fields::new(self.alloc);
        for x in xs.as_slice() {
            match self.out(&x.query, c)? {
                Out::Value(v) => put(self.alloc, &mut got, x.key.as_str(), v)?,
                Out::Failed(t) => return Ok(Out::Failed(t)),
                Out::Deleted => {}
                Out::Nothing => {}
            }
        }
        limited(self.alloc, "literal", Val::Obj(got))
    }

    /// What operands between `+`, `-`, `*`, `/` and `%` give.
    #[inline(never)]
    pub fn terms(
        &self,
        first: &Boxed<Query>,
        ts: &Items<Term<Query>>,
        c: &Ctx<'_>,
    ) -> Result<Out, NoMemory>
        requires { Serves self.now.room (F.pre self.now.eval) (F.post self.now.eval) }
        ensures { IfOk result (λ o. o ≡ views.terms_value first.now ts.now (seen c.now)) }
    {
        let mut got = self.out(first.get(), c)?;
        for t in ts.as_slice() {
            if out_failed(&got) {
                return Ok(got);
            }
            let right = self.out(&t.query, c)?;
            got = operands(self.alloc, t.op, got, right)?;
        }
        Ok(got)
    }

    /// What operands between `&&` or `||` give; the boolean is the one that decides.
    #[inline(never)]
    pub fn logic(
        &self,
        op: Op,
        w: bool,
        first: &Boxed<Query>,
        qs: &Items<Query>,
        c: &Ctx<'_>,
    ) -> Result<Out, NoMemory>
        requires { Serves self.now.room (F.pre self.now.eval) (F.post self.now.eval) }
        ensures { IfOk result (λ o. o ≡ views.logic_value op w first.now qs.now (seen c.now)) }
    {
        let mut got = self.out(first.get(), c)?;
        for q in qs.as_slice() {
            if decides(w, &got) {
                return Ok(got);
            }
            let right = self.out(q, c)?;
            got = operands(self.alloc, op, got, right)?;
        }
        Ok(got)
    }

    /// What operands between `|` give.
    #[inline(never)]
    pub fn coal<'a>(
        &self,
        first: &Boxed<Query>,
        qs: &Items<Query>,
        c: &Ctx<'a>,
    ) -> Result<Got<'a>, NoMemory>
        requires { Serves self.now.room (F.pre self.now.eval) (F.post self.now.eval) }
        ensures { IfOk result (λ g. out_of g ≡ views.coal_value first.now qs.now (seen c.now)) }
    {
        let mut got = self.eval(first.get(), c)?;
        for q in qs.as_slice() {
            if settles(&got) {
                return Ok(got);
            }
            got = self.eval(q, c)?;
        }
        Ok(got)
    }

    /// What a comparison gives.
    #[inline(never)]
    pub fn compare(&self, a: &Query, op: Op, b: &Query, c: &Ctx<'_>) -> Result<Out, NoMemory>
        requires { Serves self.now.room (F.pre self.now.eval) (F.post self.now.eval) }
        ensures { IfOk result (λ o. o ≡ spec.operands op (value a.now (seen c.now)) (value b.now (seen c.now))) }
    {
        let first = self.out(a, c)?;
        let second = self.out(b, c)?;
        operands(self.alloc, op, first, second)
    }
}
