//! `if` and `match`.
ghost use Rattle.std.specs.Prelude.{◌≡◌, IfOk};
ghost use Rattle.bt_contexts.specs.Seen.{seen, out_of};
ghost use Rattle.bt_queries.specs.Serves.{Serves};
ghost use Rattle.bt_queries.specs.Views as views;

use crate::evaluator::Evaluator;
use bt_contexts::got::{is_value, own, passes, this_out, truth};
use bt_contexts::operators::literal;
use bt_contexts::{Ctx, Got, This};
use bt_kinds::kinds::{Kind, kind_of, wrong};
use bt_ports::NoMemory;
use bt_tree::{Branch, Case, Query};
use bt_value::Out;
use sqlite_items::{Boxed, Items};
use std::alloc::Global;

impl<F: for<'a> Fn(Global, usize, &Query, &Ctx<'a>) -> Result<Got<'a>, NoMemory>> Evaluator<F> {
    /// What the branches of an `if` give.
    #[inline(never)]
    pub fn branches<'a>(
        &self,
        branches: &Items<Branch<Query>>,
        last: &Option<Boxed<Query>>,
        c: &Ctx<'a>,
    ) -> Result<Got<'a>, NoMemory>
        requires { Serves self.now.room (F.pre self.now.eval) (F.post self.now.eval) }
        ensures { IfOk result (λ g. out_of g ≡ views.if_value branches.now last.now (seen c.now)) }
    {
        for branch in branches.as_slice() {
            match self.out(&branch.test, c)? {
                Out::Value(v) => match truth(&v) {
                    Some(true) => return self.eval(&branch.gives, c),
                    Some(false) => {}
                    None => return Ok(Got::Made(wrong(self.alloc, "if", kind_of(&v))?)),
                },
                Out::Failed(t) => return Ok(Got::Made(Out::Failed(t))),
                Out::Deleted => return Ok(Got::Made(wrong(self.alloc, "if", Kind::Deleted)?)),
                Out::Nothing => return Ok(Got::Made(wrong(self.alloc, "if", Kind::Nothing)?)),
            }
        }
        match last {
            Some(q) => self.eval(q.get(), c),
            None => Ok(Got::Made(Out::Nothing)),
        }
    }

    /// Whether `this` matches a case.
    fn test(&self, test: &Query, c: &Ctx<'_>) -> Result<bool, NoMemory>
        requires { Serves self.now.room (F.pre self.now.eval) (F.post self.now.eval) }
        ensures { IfOk result (λ b. b ≡ views.test_value test.now (seen c.now)) }
    {
        match literal(self.alloc, test)? {
            Some(v) => Ok(is_value(&v, &this_out(self.alloc, c)?)),
            None => Ok(passes(&self.eval(test, c)?)),
        }
    }

    /// What the first case that matches gives.
    fn cases<'a>(&self, cases: &Items<Case<Query>>, c: &Ctx<'a>) -> Result<Got<'a>, NoMemory>
        requires { Serves self.now.room (F.pre self.now.eval) (F.post self.now.eval) }
        ensures { IfOk result (λ g. out_of g ≡ views.cases_value cases.now (seen c.now)) }
    {
        for case in cases.as_slice() {
            match case {
                Case::Any(q) => return self.eval(q, c),
                Case::When(test, q) => {
                    if self.test(test, c)? {
                        return self.eval(q, c);
                    }
                }
            }
        }
        Ok(Got::Made(Out::Nothing))
    }

    /// What a `match` gives.
    #[inline(never)]
    pub fn matched<'a>(
        &self,
        target: &Option<Boxed<Query>>,
        cases: &Items<Case<Query>>,
        c: &Ctx<'a>,
    ) -> Result<Got<'a>, NoMemory>
        requires { Serves self.now.room (F.pre self.now.eval) (F.post self.now.eval) }
        ensures { IfOk result (λ g. out_of g ≡ views.match_value target.now cases.now (seen c.now)) }
    {
        match target {
            None => self.cases(cases, c),
            Some(q) => match self.eval(q.get(), c)? {
                Got::Known(v) => self.cases(
                    cases,
                    &Ctx {
                        this: This::Known(v),
                        ..*c
                    },
                ),
                Got::Made(Out::Value(v)) => {
                    let got = self.cases(
                        cases,
                        &Ctx {
                            this: This::Known(&v),
                            ..*c
                        },
                    )?;
                    Ok(Got::Made(own(self.alloc, got)?))
                }
                Got::Made(Out::Failed(t)) => Ok(Got::Made(Out::Failed(t))),
                Got::Made(Out::Deleted) => {
                    Ok(Got::Made(wrong(self.alloc, "match", Kind::Deleted)?))
                }
                Got::Made(Out::Nothing) => {
                    Ok(Got::Made(wrong(self.alloc, "match", Kind::Nothing)?))
                }
            },
        }
    }
}
