//! `sort_by`.
ghost use Rattle.std.specs.Prelude.{◌≡◌, IfOk, Ok, Some};
ghost use Rattle.std.specs.Cmp.Lexicographic.{slice_cmp};
ghost use Rattle.std.specs.Ordering.{int_cmp, nat_cmp};
ghost use Rattle.bt_contexts.specs.Seen.{seen, out_of};
ghost use Rattle.bt_kinds.specs.Targets as targets;
ghost use Rattle.bt_meaning.specs.Lambdas as spec;
ghost use Rattle.bt_meaning.specs.Literals.{one_more};
ghost use Rattle.bt_queries.specs.Serves.{Serves};
ghost use Rattle.bt_queries.specs.Views as views;

use crate::evaluator::Evaluator;
use bt_contexts::{Ctx, Got};
use bt_functions::parts::{number_of, string_of};
use bt_functions::places::{by_numbers, by_strings};
use bt_kinds::kinds::{Kind, kind_of, wrong};
use bt_kinds::targets::{number, string};
use bt_ports::NoMemory;
use bt_ports::text::Text;
use bt_tree::{Arg, Query};
use bt_value::{Out, Val};
use sqlite_items::Items;
use std::alloc::Global;

impl<F: for<'a> Fn(Global, usize, &Query, &Ctx<'a>) -> Result<Got<'a>, NoMemory>> Evaluator<F> {
    /// What `sort_by` gives of a value.
    #[inline(never)]
    #[tactic(auto, unfolding(bt_kinds::specs::Targets::array))]
    pub fn sort_by(&self, f: &Arg<Query>, v: &Val, c: &Ctx<'_>) -> Result<Out, NoMemory>
        requires { Serves self.now.room (F.pre self.now.eval) (F.post self.now.eval) }
        ensures { IfOk result (λ o. o ≡ spec.sort_by (views.arg_of f.now) (seen c.now) v.now) }
    {
        match v {
            Val::Arr(items) => self.sorted_by(f, items.as_slice(), c),
            _ => wrong(self.alloc, "sort_by", kind_of(v)),
        }
    }

    /// The elements by rising keys.
    fn sorted_by(&self, f: &Arg<Query>, items: &[Val], c: &Ctx<'_>) -> Result<Out, NoMemory>
        requires { Serves self.now.room (F.pre self.now.eval) (F.post self.now.eval) }
        ensures { IfOk result (λ o. o ≡ spec.sorted_by (views.arg_of f.now) items.now (seen c.now)) }
    {
        match items {
            [] => Ok(Out::Value(Val::Arr(Items::new(self.alloc)))),
            [first, rest @ ..] => match self.element(f, first, c)? {
                Out::Value(key) => match number(&key) {
                    Ok(n) => self.by_number_keys(n, f, items, rest, c),
                    Err(_) => match string(key) {
                        Ok(s) => self.by_string_keys(s, f, items, rest, c),
                        Err(kind) => wrong(self.alloc, "sort_by", kind),
                    },
                },
                Out::Failed(t) => Ok(Out::Failed(t)),
                Out::Deleted => wrong(self.alloc, "sort_by", Kind::Deleted),
                Out::Nothing => wrong(self.alloc, "sort_by", Kind::Nothing),
            },
        }
    }

    /// The elements by numbers, of which the first is known.
    fn by_number_keys(
        &self,
        first: i64,
        f: &Arg<Query>,
        items: &[Val],
        rest: &[Val],
        c: &Ctx<'_>,
    ) -> Result<Out, NoMemory>
        requires { Serves self.now.room (F.pre self.now.eval) (F.post self.now.eval) }
        ensures { IfOk result (λ o. o ≡ spec.in_order int_cmp items.now
            (one_more (Ok (Some (first, 0))) (spec.keys_from targets.number (views.arg_of f.now) 1 rest.now (seen c.now)))) }
    {
        match self.number_keys(first, f, rest, c)? {
            Ok(keys) => Ok(Out::Value(Val::Arr(by_numbers(self.alloc, items, &keys)?))),
            Err(o) => Ok(o),
        }
    }

    /// The keys that are numbers, each with its element's place.
    #[tactic(auto, using(crate::proofs::Loops::after_nothing, crate::proofs::Loops::after_one))]
    fn number_keys(
        &self,
        first: i64,
        f: &Arg<Query>,
        rest: &[Val],
        c: &Ctx<'_>,
    ) -> Result<Result<Items<(i64, usize)>, Out>, NoMemory>
        requires { Serves self.now.room (F.pre self.now.eval) (F.post self.now.eval) }
        ensures { IfOk result (λ r. r ≡ one_more (Ok (Some (first, 0))) (spec.keys_from targets.number (views.arg_of f.now) 1 rest.now (seen c.now))) }
    {
        let mut got = Items::new(self.alloc);
        got.push((first, 0))?;
        for (i, item) in rest.iter().enumerate() {
            let o = self.element(f, item, c)?;
            match number_of(self.alloc, "sort_by", o)? {
                Ok(n) => got.push((n, i + 1))?,
                Err(o) => return Ok(Err(o)),
            }
        }
        Ok(Ok(got))
    }

    /// The elements by strings, of which the first is known.
    fn by_string_keys(
        &self,
        first: Text,
        f: &Arg<Query>,
        items: &[Val],
        rest: &[Val],
        c: &Ctx<'_>,
    ) -> Result<Out, NoMemory>
        requires { Serves self.now.room (F.pre self.now.eval) (F.post self.now.eval) }
        ensures { IfOk result (λ o. o ≡ spec.in_order (slice_cmp nat_cmp) items.now
            (one_more (Ok (Some (first, 0))) (spec.keys_from targets.string (views.arg_of f.now) 1 rest.now (seen c.now)))) }
    {
        match self.string_keys(first, f, rest, c)? {
            Ok(keys) => Ok(Out::Value(Val::Arr(by_strings(self.alloc, items, keys)?))),
            Err(o) => Ok(o),
        }
    }

    /// The keys that are strings, each with its element's place.
    #[tactic(auto, using(crate::proofs::Loops::after_nothing, crate::proofs::Loops::after_one))]
    fn string_keys(
        &self,
        first: Text,
        f: &Arg<Query>,
        rest: &[Val],
        c: &Ctx<'_>,
    ) -> Result<Result<Items<(Text, usize)>, Out>, NoMemory>
        requires { Serves self.now.room (F.pre self.now.eval) (F.post self.now.eval) }
        ensures { IfOk result (λ r. r ≡ one_more (Ok (Some (first, 0))) (spec.keys_from targets.string (views.arg_of f.now) 1 rest.now (seen c.now))) }
    {
        let mut got = Items::new(self.alloc);
        got.push((first, 0))?;
        for (i, item) in rest.iter().enumerate() {
            let o = self.element(f, item, c)?;
            match string_of(self.alloc, "sort_by", o)? {
                Ok(s) => got.push((s, i + 1))?,
                Err(o) => return Ok(Err(o)),
            }
        }
        Ok(Ok(got))
    }
}
