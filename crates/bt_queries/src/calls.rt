//! Functions, methods, and what else stands behind a head.
ghost use Rattle.std.specs.Prelude.{◌≡◌, IfOk, OnOk, OnErr, ◌++◌, ◌∷◌, []};
ghost use Rattle.bt_contexts.specs.Seen.{seen, out_of};
ghost use Rattle.bt_meaning.specs.Contexts as context;
ghost use Rattle.bt_meaning.specs.Methods as spec;
ghost use Rattle.bt_meaning.specs.Value.{value};
ghost use Rattle.bt_queries.specs.Serves.{Serves};
ghost use Rattle.bt_queries.specs.Views as views;
ghost use Rattle.bt_tree.specs.declared.tree.Suffix.TheVariants as suffix;

use crate::evaluator::Evaluator;
use crate::maps::literal_text;
use bt_contexts::got::{bind, digits, is_failed, out_failed, own, segment, settles};
use bt_contexts::{Ctx, Got, This};
use bt_functions::function;
use bt_kinds::kinds::{Kind, wrong};
use bt_kinds::moving::into_vec;
use bt_meaning::Form;
use bt_meaning::forms::form_of;
use bt_methods::called;
use bt_patterns::Pattern;
use bt_ports::NoMemory;
use bt_tree::{Arg, Query, Suffix};
use bt_value::{MethodId, Out, Val, function_of, method_of};
use sqlite_items::{Boxed, Items};
use std::alloc::Global;

/// Puts an outcome at the end.
fn push_out(outs: &mut Items<Out>, o: Out) -> Result<(), NoMemory>
    ensures ok { OnOk result (outs.new ≡ outs.old ++ o ∷ []) }
    ensures err { OnErr result (outs.new ≡ outs.old) }
{
    match outs.push(o) {
        Ok(()) => Ok(()),
        Err(_) => Err(NoMemory),
    }
}

/// The pattern that was built from a text, where there is one.
fn pattern_of<'a>(patterns: &'a [Pattern], text: &str) -> Option<&'a Pattern> {
    patterns.iter().find(|pattern| pattern.text() == text)
}

/// Whether a method's first argument is a pattern.
fn has_pattern(id: MethodId) -> bool {
    matches!(
        id,
        MethodId::ReMatch | MethodId::ReFindAll | MethodId::ReFindObject | MethodId::ReReplaceAll
    )
}

impl<F: for<'a> Fn(Global, usize, &Query, &Ctx<'a>) -> Result<Got<'a>, NoMemory>> Evaluator<F> {
    /// What an argument gives; a lambda counts as nothing.
    pub fn arg<'a>(&self, arg: &Arg<Query>, c: &Ctx<'a>) -> Result<Got<'a>, NoMemory>
        requires { Serves self.now.room (F.pre self.now.eval) (F.post self.now.eval) }
        ensures { IfOk result (λ g. out_of g ≡ views.arg_value arg.now (seen c.now)) }
    {
        match arg {
            Arg::Query(q) => self.eval(q, c),
            Arg::Lambda(_, _) => Ok(Got::Made(Out::Nothing)),
        }
    }

    /// What the first argument gives.
    #[inline(never)]
    pub fn first<'a>(&self, args: &Items<Arg<Query>>, c: &Ctx<'a>) -> Result<Got<'a>, NoMemory>
        requires { Serves self.now.room (F.pre self.now.eval) (F.post self.now.eval) }
        ensures { IfOk result (λ g. out_of g ≡ views.first_value args.now (seen c.now)) }
    {
        match args.as_slice() {
            [arg, ..] => self.arg(arg, c),
            [] => Ok(Got::Made(Out::Nothing)),
        }
    }

    /// What the arguments give, or the first failure.
    #[tactic(auto, using(crate::proofs::Loops::after_nothing, crate::proofs::Loops::after_one))]
    fn args(
        &self,
        args: &Items<Arg<Query>>,
        c: &Ctx<'_>,
    ) -> Result<Result<Items<Out>, Out>, NoMemory>
        requires { Serves self.now.room (F.pre self.now.eval) (F.post self.now.eval) }
        ensures { IfOk result (λ r. r ≡ views.args_value args.now (seen c.now)) }
    {
        let mut got = Items::new(self.alloc);
        for arg in args.as_slice() {
            match own(self.alloc, self.arg(arg, c)?)? {
                Out::Failed(t) => return Ok(Err(Out::Failed(t))),
                Out::Value(v) => push_out(&mut got, Out::Value(v))?,
                Out::Deleted => push_out(&mut got, Out::Deleted)?,
                Out::Nothing => push_out(&mut got, Out::Nothing)?,
            }
        }
        Ok(Ok(got))
    }

    /// What a function gives.
    #[inline(never)]
    pub fn call(&self, name: &str, args: &Items<Arg<Query>>, c: &Ctx<'_>) -> Result<Out, NoMemory>
        requires { Serves self.now.room (F.pre self.now.eval) (F.post self.now.eval) }
        ensures { IfOk result (λ o. o ≡ views.call_value name.now args.now (seen c.now)) }
    {
        match function_of(name) {
            None => Ok(Out::Nothing),
            Some(id) => match self.args(args, c)? {
                Ok(outs) => function(self.alloc, id, outs, c.msg, c.spot),
                Err(o) => Ok(o),
            },
        }
    }

    /// What an argument gives of an element.
    pub fn element(&self, arg: &Arg<Query>, v: &Val, c: &Ctx<'_>) -> Result<Out, NoMemory>
        requires { Serves self.now.room (F.pre self.now.eval) (F.post self.now.eval) }
        ensures { IfOk result (λ o. o ≡ views.element_value arg.now v.now (seen c.now)) }
    {
        match arg {
            Arg::Query(q) => self.out(
                q,
                &Ctx {
                    this: This::Known(v),
                    ..*c
                },
            ),
            Arg::Lambda(name, q) => self.named(name.as_str(), q, v, c),
        }
    }

    /// What a query gives with one name more.
    fn named<'a>(&self, name: &'a str, q: &Query, v: &'a Val, c: &Ctx<'a>) -> Result<Out, NoMemory>
        requires { Serves self.now.room (F.pre self.now.eval) (F.post self.now.eval) }
        ensures { IfOk result (λ o. o ≡ value q.now (context.with_name name.now v.now (seen c.now))) }
    {
        let names = bind(c.names, name, v);
        self.out(
            q,
            &Ctx {
                names: Some(&names),
                ..*c
            },
        )
    }

    /// What a head and its suffixes give.
    #[inline(never)]
    pub fn item<'a>(
        &self,
        head: &Boxed<Query>,
        xs: &Items<Suffix<Query>>,
        c: &Ctx<'a>,
    ) -> Result<Got<'a>, NoMemory>
        requires { Serves self.now.room (F.pre self.now.eval) (F.post self.now.eval) }
        ensures { IfOk result (λ g. out_of g ≡ views.item_value head.now xs.now (seen c.now)) }
    {
        let mut got = self.eval(head.get(), c)?;
        for x in xs.as_slice() {
            got = self.suffix(x, got, c)?;
        }
        Ok(got)
    }

    fn suffix<'a>(&self, x: &Suffix<Query>, got: Got<'a>, c: &Ctx<'a>) -> Result<Got<'a>, NoMemory>
        requires { Serves self.now.room (F.pre self.now.eval) (F.post self.now.eval) }
        ensures { IfOk result (λ g. out_of g ≡ views.suffix_value x.now (seen c.now) (out_of got.entry)) }
    {
        match x {
            Suffix::Name(n) => segment(self.alloc, n, got),
            Suffix::Quoted(n) => segment(self.alloc, n, got),
            Suffix::Int(n) => {
                let name = digits(self.alloc, *n)?;
                segment(self.alloc, &name, got)
            }
            Suffix::Within(f) => Ok(Got::Made(self.within(f, got, c)?)),
            Suffix::Method(w, args) => self.method(w.text.as_str(), args, got, c),
        }
    }

    #[inline(never)]
    fn within(&self, f: &Arg<Query>, got: Got<'_>, c: &Ctx<'_>) -> Result<Out, NoMemory>
        requires { Serves self.now.room (F.pre self.now.eval) (F.post self.now.eval) }
        ensures { IfOk result (λ o. o ≡ views.suffix_value (suffix.Within f.now) (seen c.now) (out_of got.entry)) }
    {
        match got {
            Got::Known(v) => self.element(f, v, c),
            Got::Made(Out::Value(v)) => self.element(f, &v, c),
            Got::Made(Out::Failed(t)) => Ok(Out::Failed(t)),
            Got::Made(Out::Deleted) => wrong(self.alloc, "()", Kind::Deleted),
            Got::Made(Out::Nothing) => wrong(self.alloc, "()", Kind::Nothing),
        }
    }

    fn method<'a>(
        &self,
        name: &str,
        args: &Items<Arg<Query>>,
        got: Got<'a>,
        c: &Ctx<'a>,
    ) -> Result<Got<'a>, NoMemory>
        requires { Serves self.now.room (F.pre self.now.eval) (F.post self.now.eval) }
        ensures { IfOk result (λ g. out_of g ≡ views.method_value name.now args.now (seen c.now) (out_of got.entry)) }
    {
        match method_of(name) {
            None => Ok(Got::Made(Out::Nothing)),
            Some(id) => self.by_form(id, args, got, c),
        }
    }

    #[inline(never)]
    fn by_form<'a>(
        &self,
        id: MethodId,
        args: &Items<Arg<Query>>,
        got: Got<'a>,
        c: &Ctx<'a>,
    ) -> Result<Got<'a>, NoMemory>
        requires { Serves self.now.room (F.pre self.now.eval) (F.post self.now.eval) }
        ensures { IfOk result (λ g. out_of g ≡ views.form_value id args.now (seen c.now) (out_of got.entry)) }
    {
        match form_of(id) {
            Form::Catch => {
                if is_failed(&got) {
                    self.first(args, c)
                } else {
                    Ok(got)
                }
            }
            Form::Or => {
                if settles(&got) {
                    Ok(got)
                } else {
                    self.first(args, c)
                }
            }
            Form::Apply => Ok(Got::Made(self.apply(args, got, c)?)),
            Form::Each(each) => Ok(Got::Made(self.each(each, args, got, c)?)),
            Form::Fold => Ok(Got::Made(self.fold(args, got, c)?)),
            Form::Plain => Ok(Got::Made(self.plain(id, args, got, c)?)),
        }
    }

    /// What a method that takes values alone gives.
    #[inline(never)]
    fn plain(
        &self,
        id: MethodId,
        args: &Items<Arg<Query>>,
        got: Got<'_>,
        c: &Ctx<'_>,
    ) -> Result<Out, NoMemory>
        requires { Serves self.now.room (F.pre self.now.eval) (F.post self.now.eval) }
        ensures { IfOk result (λ o. o ≡ spec.plain id (out_of got.entry) (views.args_value args.now (seen c.now))) }
    {
        let target = own(self.alloc, got)?;
        if out_failed(&target) {
            return Ok(target);
        }
        match self.args(args, c)? {
            Ok(outs) => {
                let pattern = if has_pattern(id) {
                    pattern_of(c.patterns, literal_text(args))
                } else {
                    None
                };
                called(self.alloc, id, target, into_vec(self.alloc, outs)?, pattern)
            }
            Err(o) => Ok(o),
        }
    }
}
