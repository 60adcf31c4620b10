//! Methods that evaluate a query on each element.
ghost use Rattle.std.specs.Prelude.{◌≡◌, IfOk, [], Ok};
ghost use Rattle.bt_value.specs.declared.message.Out.TheVariants as out;
ghost use Rattle.bt_contexts.specs.Seen.{seen, out_of};
ghost use Rattle.bt_meaning.specs.Forms.{each_name};
ghost use Rattle.bt_meaning.specs.Lambdas as spec;
ghost use Rattle.bt_meaning.specs.Methods as method;
ghost use Rattle.bt_queries.specs.Serves.{Serves};
ghost use Rattle.bt_queries.specs.Views as views;

use crate::evaluator::Evaluator;
use bt_contexts::got::{is_failed, is_true, out_failed, own, push};
use bt_contexts::{Ctx, Got};
use bt_functions::parts::{boolean_of, string_of};
use bt_kinds::kinds::{Kind, kind_of, wrong};
use bt_kinds::limited;
use bt_kinds::moving::put;
use bt_meaning::Each;
use bt_meaning::forms::each_name;
use bt_ports::NoMemory;
use bt_ports::text::Text;
use bt_tree::{Arg, Query};
use bt_value::{Fields, FieldsBuilder, Members, Out, Val, copy};
use sqlite_items::Items;
use std::alloc::Global;

/// A member of an object as an element.
fn member_element(alloc: Global, member: &(Text, Val)) -> Result<Val, NoMemory>
    ensures { IfOk result (λ x. x ≡ spec.member_element member.now) }
{
    let mut members = Fields::new(alloc);
    let key = Text::make(alloc, member.0.as_str())?;
    put(alloc, &mut members, "key", Val::Str(key))?;
    put(alloc, &mut members, "value", copy(alloc, &member.1)?)?;
    Ok(Val::Obj(members))
}

/// A tally and an element as one object.
fn tally_element(alloc: Global, tally: Val, v: &Val) -> Result<Val, NoMemory>
    ensures { IfOk result (λ x. x ≡ spec.tally_element tally v.now) }
{
    let mut members = Fields::new(alloc);
    put(alloc, &mut members, "tally", tally)?;
    put(alloc, &mut members, "value", copy(alloc, v)?)?;
    Ok(Val::Obj(members))
}

impl<F: for<'a> Fn(Global, usize, &Query, &Ctx<'a>) -> Result<Got<'a>, NoMemory>> Evaluator<F> {
    /// What a method with a query on each element gives.
    #[inline(never)]
    pub fn each(
        &self,
        each: Each,
        args: &Items<Arg<Query>>,
        got: Got<'_>,
        c: &Ctx<'_>,
    ) -> Result<Out, NoMemory>
        requires { Serves self.now.room (F.pre self.now.eval) (F.post self.now.eval) }
        ensures { IfOk result (λ o. o ≡ method.with_query (each_name each) (out_of got.entry) (views.arg_at 0 args.now)
            (λ f x. spec.each_of each f (seen c.now) x)) }
    {
        match args.as_slice() {
            [] => Ok(Out::Nothing),
            [f, ..] => match got {
                Got::Known(v) => self.each_of(each, f, v, c),
                Got::Made(Out::Value(v)) => self.each_of(each, f, &v, c),
                Got::Made(Out::Failed(t)) => Ok(Out::Failed(t)),
                Got::Made(Out::Deleted) => wrong(self.alloc, each_name(each), Kind::Deleted),
                Got::Made(Out::Nothing) => wrong(self.alloc, each_name(each), Kind::Nothing),
            },
        }
    }

    fn each_of(&self, each: Each, f: &Arg<Query>, v: &Val, c: &Ctx<'_>) -> Result<Out, NoMemory>
        requires { Serves self.now.room (F.pre self.now.eval) (F.post self.now.eval) }
        ensures { IfOk result (λ o. o ≡ spec.each_of each (views.arg_of f.now) (seen c.now) v.now) }
    {
        match each {
            Each::MapEach => self.map_each(f, v, c),
            Each::MapEachKey => self.map_each_key(f, v, c),
            Each::Filter => self.filter(f, v, c),
            Each::Any => self.any(f, v, c),
            Each::All => self.all(f, v, c),
            Each::SortBy => self.sort_by(f, v, c),
        }
    }

    #[inline(never)]
    #[tactic(auto, unfolding(bt_kinds::specs::Targets::array, bt_kinds::specs::Targets::object))]
    fn map_each(&self, f: &Arg<Query>, v: &Val, c: &Ctx<'_>) -> Result<Out, NoMemory>
        requires { Serves self.now.room (F.pre self.now.eval) (F.post self.now.eval) }
        ensures { IfOk result (λ o. o ≡ spec.map_each (views.arg_of f.now) (seen c.now) v.now) }
    {
        match v {
            Val::Arr(items) => match self.elements(f, items, c)? {
                Ok(items) => limited(self.alloc, "map_each", Val::Arr(items)),
                Err(o) => Ok(o),
            },
            Val::Obj(members) => match self.members(f, members, c)? {
                Ok(members) => limited(self.alloc, "map_each", Val::Obj(members)),
                Err(o) => Ok(o),
            },
            _ => wrong(self.alloc, "map_each", kind_of(v)),
        }
    }

    /// What the elements become.
    #[tactic(auto, using(crate::proofs::Loops::after_nothing, crate::proofs::Loops::after_one))]
    fn elements(
        &self,
        f: &Arg<Query>,
        items: &Items<Val>,
        c: &Ctx<'_>,
    ) -> Result<Result<Items<Val>, Out>, NoMemory>
        requires { Serves self.now.room (F.pre self.now.eval) (F.post self.now.eval) }
        ensures { IfOk result (λ r. r ≡ spec.each (views.arg_of f.now) items.now (seen c.now)) }
    {
        let mut got = Items::new(self.alloc);
        for item in items.as_slice() {
            match self.element(f, item, c)? {
                Out::Value(v) => push(&mut got, v)?,
                Out::Failed(t) => return Ok(Err(Out::Failed(t))),
                Out::Deleted => {}
                Out::Nothing => push(&mut got, copy(self.alloc, item)?)?,
            }
        }
        Ok(Ok(got))
    }

    /// What the members become.
    #[tactic(auto, using(crate::proofs::Loops::put_nothing, crate::proofs::Loops::put_one))]
    fn members(
        &self,
        f: &Arg<Query>,
        members: &Members,
        c: &Ctx<'_>,
    ) -> Result<Result<Members, Out>, NoMemory>
        requires { Serves self.now.room (F.pre self.now.eval) (F.post self.now.eval) }
        ensures { IfOk result (λ r. r ≡ spec.put_in [] (spec.each_member (views.arg_of f.now) members.now (seen c.now))) }
    {
        let mut got = FieldsBuilder::new(self.alloc);
        for member in members.as_slice() {
            let element = member_element(self.alloc, member)?;
            match self.element(f, &element, c)? {
                Out::Value(v) => got.put(Text::make(self.alloc, member.0.as_str())?, v)?,
                Out::Failed(t) => return Ok(Err(Out::Failed(t))),
                Out::Deleted => {}
                Out::Nothing => {
                    let kept = copy(self.alloc, &member.1)?;
                    got.put(Text::make(self.alloc, member.0.as_str())?, kept)?;
                }
            }
        }
        Ok(Ok(got.finish()?))
    }

    #[inline(never)]
    #[tactic(auto, unfolding(bt_kinds::specs::Targets::object))]
    fn map_each_key(&self, f: &Arg<Query>, v: &Val, c: &Ctx<'_>) -> Result<Out, NoMemory>
        requires { Serves self.now.room (F.pre self.now.eval) (F.post self.now.eval) }
        ensures { IfOk result (λ o. o ≡ spec.map_each_key (views.arg_of f.now) (seen c.now) v.now) }
    {
        match v {
            Val::Obj(members) => match self.keys(f, members, c)? {
                Ok(members) => Ok(Out::Value(Val::Obj(members))),
                Err(o) => Ok(o),
            },
            _ => wrong(self.alloc, "map_each_key", kind_of(v)),
        }
    }

    /// The key that a query gives of a key.
    fn new_key(&self, f: &Arg<Query>, key: &str, c: &Ctx<'_>) -> Result<Result<Text, Out>, NoMemory>
        requires { Serves self.now.room (F.pre self.now.eval) (F.post self.now.eval) }
        ensures { IfOk result (λ r. r ≡ views.new_key (views.arg_of f.now) key.now (seen c.now)) }
    {
        let key = Val::Str(Text::make(self.alloc, key)?);
        let o = self.element(f, &key, c)?;
        string_of(self.alloc, "map_each_key", o)
    }

    /// The members with the keys that theirs become.
    #[tactic(auto, using(crate::proofs::Loops::put_nothing, crate::proofs::Loops::put_one))]
    fn keys(
        &self,
        f: &Arg<Query>,
        members: &Members,
        c: &Ctx<'_>,
    ) -> Result<Result<Members, Out>, NoMemory>
        requires { Serves self.now.room (F.pre self.now.eval) (F.post self.now.eval) }
        ensures { IfOk result (λ r. r ≡ spec.put_in [] (spec.each_key (views.arg_of f.now) members.now (seen c.now))) }
    {
        let mut got = FieldsBuilder::new(self.alloc);
        for member in members.as_slice() {
            match self.new_key(f, member.0.as_str(), c)? {
                Ok(key) => got.put(key, copy(self.alloc, &member.1)?)?,
                Err(o) => return Ok(Err(o)),
            }
        }
        Ok(Ok(got.finish()?))
    }

    #[inline(never)]
    #[tactic(auto, unfolding(bt_kinds::specs::Targets::array, bt_kinds::specs::Targets::object))]
    fn filter(&self, f: &Arg<Query>, v: &Val, c: &Ctx<'_>) -> Result<Out, NoMemory>
        requires { Serves self.now.room (F.pre self.now.eval) (F.post self.now.eval) }
        ensures { IfOk result (λ o. o ≡ spec.filter (views.arg_of f.now) (seen c.now) v.now) }
    {
        match v {
            Val::Arr(items) => match self.filtered(f, items, c)? {
                Ok(items) => Ok(Out::Value(Val::Arr(items))),
                Err(o) => Ok(o),
            },
            Val::Obj(members) => match self.filtered_members(f, members, c)? {
                Ok(members) => Ok(Out::Value(Val::Obj(members))),
                Err(o) => Ok(o),
            },
            _ => wrong(self.alloc, "filter", kind_of(v)),
        }
    }

    /// The elements for which a query is true.
    #[tactic(auto, using(crate::proofs::Loops::after_nothing, crate::proofs::Loops::after_one))]
    fn filtered(
        &self,
        f: &Arg<Query>,
        items: &Items<Val>,
        c: &Ctx<'_>,
    ) -> Result<Result<Items<Val>, Out>, NoMemory>
        requires { Serves self.now.room (F.pre self.now.eval) (F.post self.now.eval) }
        ensures { IfOk result (λ r. r ≡ spec.filtered (views.arg_of f.now) items.now (seen c.now)) }
    {
        let mut got = Items::new(self.alloc);
        for item in items.as_slice() {
            match self.element(f, item, c)? {
                Out::Value(v) => {
                    if is_true(&v) {
                        push(&mut got, copy(self.alloc, item)?)?;
                    }
                }
                Out::Failed(t) => return Ok(Err(Out::Failed(t))),
                Out::Deleted => {}
                Out::Nothing => {}
            }
        }
        Ok(Ok(got))
    }

    /// Whether a query is true for an element, or the failure that stands in its place.
    fn stays(&self, f: &Arg<Query>, v: &Val, c: &Ctx<'_>) -> Result<Result<bool, Out>, NoMemory>
        requires { Serves self.now.room (F.pre self.now.eval) (F.post self.now.eval) }
        ensures { IfOk result (λ r. r ≡ views.stays (views.element_value f.now v.now (seen c.now))) }
    {
        match self.element(f, v, c)? {
            Out::Value(v) => Ok(Ok(is_true(&v))),
            Out::Failed(t) => Ok(Err(Out::Failed(t))),
            Out::Deleted => Ok(Ok(false)),
            Out::Nothing => Ok(Ok(false)),
        }
    }

    /// Whether a query is true for a member.
    fn member_stays(
        &self,
        f: &Arg<Query>,
        member: &(Text, Val),
        c: &Ctx<'_>,
    ) -> Result<Result<bool, Out>, NoMemory>
        requires { Serves self.now.room (F.pre self.now.eval) (F.post self.now.eval) }
        ensures { IfOk result (λ r. r ≡ views.stays (views.element_value f.now (spec.member_element member.now) (seen c.now))) }
    {
        let element = member_element(self.alloc, member)?;
        self.stays(f, &element, c)
    }

    /// The members for which a query is true.
    #[tactic(auto, using(crate::proofs::Loops::put_nothing, crate::proofs::Loops::put_one, crate::proofs::Loops::kept_yes, crate::proofs::Loops::kept_no, crate::proofs::Loops::kept_failed))]
    fn filtered_members(
        &self,
        f: &Arg<Query>,
        members: &Members,
        c: &Ctx<'_>,
    ) -> Result<Result<Members, Out>, NoMemory>
        requires { Serves self.now.room (F.pre self.now.eval) (F.post self.now.eval) }
        ensures { IfOk result (λ r. r ≡ spec.put_in [] (spec.filtered_members (views.arg_of f.now) members.now (seen c.now))) }
    {
        let mut got = FieldsBuilder::new(self.alloc);
        for member in members.as_slice() {
            match self.member_stays(f, member, c)? {
                Ok(true) => {
                    let kept = copy(self.alloc, &member.1)?;
                    got.put(Text::make(self.alloc, member.0.as_str())?, kept)?;
                }
                Ok(false) => {}
                Err(o) => return Ok(Err(o)),
            }
        }
        Ok(Ok(got.finish()?))
    }

    #[inline(never)]
    #[tactic(auto, unfolding(bt_kinds::specs::Targets::array))]
    fn any(&self, f: &Arg<Query>, v: &Val, c: &Ctx<'_>) -> Result<Out, NoMemory>
        requires { Serves self.now.room (F.pre self.now.eval) (F.post self.now.eval) }
        ensures { IfOk result (λ o. o ≡ spec.any (views.arg_of f.now) (seen c.now) v.now) }
    {
        match v {
            Val::Arr(items) => self.any_of(f, items, c),
            _ => wrong(self.alloc, "any", kind_of(v)),
        }
    }

    fn any_of(&self, f: &Arg<Query>, items: &Items<Val>, c: &Ctx<'_>) -> Result<Out, NoMemory>
        requires { Serves self.now.room (F.pre self.now.eval) (F.post self.now.eval) }
        ensures { IfOk result (λ o. o ≡ spec.any_of (views.arg_of f.now) items.now (seen c.now)) }
    {
        for item in items.as_slice() {
            let o = self.element(f, item, c)?;
            match boolean_of(self.alloc, "any", o)? {
                Ok(true) => return Ok(Out::Value(Val::Bool(true))),
                Ok(false) => {}
                Err(o) => return Ok(o),
            }
        }
        Ok(Out::Value(Val::Bool(false)))
    }

    #[inline(never)]
    #[tactic(auto, unfolding(bt_kinds::specs::Targets::array))]
    fn all(&self, f: &Arg<Query>, v: &Val, c: &Ctx<'_>) -> Result<Out, NoMemory>
        requires { Serves self.now.room (F.pre self.now.eval) (F.post self.now.eval) }
        ensures { IfOk result (λ o. o ≡ spec.all (views.arg_of f.now) (seen c.now) v.now) }
    {
        match v {
            Val::Arr(items) => self.all_of(f, items.as_slice(), c),
            _ => wrong(self.alloc, "all", kind_of(v)),
        }
    }

    fn all_of(&self, f: &Arg<Query>, items: &[Val], c: &Ctx<'_>) -> Result<Out, NoMemory>
        requires { Serves self.now.room (F.pre self.now.eval) (F.post self.now.eval) }
        ensures { IfOk result (λ o. o ≡ spec.all_of (views.arg_of f.now) items.now (seen c.now)) }
    {
        match items {
            [] => Ok(Out::Value(Val::Bool(false))),
            [_, ..] => self.all_from(f, items, c),
        }
    }

    fn all_from(&self, f: &Arg<Query>, items: &[Val], c: &Ctx<'_>) -> Result<Out, NoMemory>
        requires { Serves self.now.room (F.pre self.now.eval) (F.post self.now.eval) }
        ensures { IfOk result (λ o. o ≡ spec.all_from (views.arg_of f.now) items.now (seen c.now)) }
    {
        for item in items {
            let o = self.element(f, item, c)?;
            match boolean_of(self.alloc, "all", o)? {
                Ok(true) => {}
                Ok(false) => return Ok(Out::Value(Val::Bool(false))),
                Err(o) => return Ok(o),
            }
        }
        Ok(Out::Value(Val::Bool(true)))
    }

    /// What `fold` gives.
    #[inline(never)]
    pub fn fold(&self, args: &Items<Arg<Query>>, got: Got<'_>, c: &Ctx<'_>) -> Result<Out, NoMemory>
        requires { Serves self.now.room (F.pre self.now.eval) (F.post self.now.eval) }
        ensures { IfOk result (λ o. o ≡ method.fold_with (out_of got.entry) (views.first_value args.now (seen c.now))
            (views.arg_at 1 args.now) (seen c.now)) }
    {
        match args.as_slice() {
            [] => Ok(Out::Nothing),
            [_] => Ok(Out::Nothing),
            [start, f, ..] => self.fold_of(start, f, got, c),
        }
    }

    fn fold_of(
        &self,
        start: &Arg<Query>,
        f: &Arg<Query>,
        got: Got<'_>,
        c: &Ctx<'_>,
    ) -> Result<Out, NoMemory>
        requires { Serves self.now.room (F.pre self.now.eval) (F.post self.now.eval) }
        ensures { IfOk result (λ o. o ≡ spec.fold_of (out_of got.entry) (views.arg_value start.now (seen c.now)) (views.arg_of f.now) (seen c.now)) }
    {
        if is_failed(&got) {
            return own(self.alloc, got);
        }
        let start = own(self.alloc, self.arg(start, c)?)?;
        if out_failed(&start) {
            return Ok(start);
        }
        match got {
            Got::Known(v) => self.fold_over(f, start, v, c),
            Got::Made(Out::Value(v)) => self.fold_over(f, start, &v, c),
            Got::Made(Out::Failed(t)) => Ok(Out::Failed(t)),
            Got::Made(Out::Deleted) => wrong(self.alloc, "fold", Kind::Deleted),
            Got::Made(Out::Nothing) => wrong(self.alloc, "fold", Kind::Nothing),
        }
    }

    #[tactic(auto, unfolding(bt_kinds::specs::Targets::array))]
    fn fold_over(&self, f: &Arg<Query>, start: Out, v: &Val, c: &Ctx<'_>) -> Result<Out, NoMemory>
        requires { Serves self.now.room (F.pre self.now.eval) (F.post self.now.eval) }
        ensures { IfOk result (λ o. o ≡ spec.fold_value start v.now (views.arg_of f.now) (seen c.now)) }
    {
        match v {
            Val::Arr(items) => match start {
                Out::Value(tally) => self.folded(f, tally, items, c),
                Out::Failed(t) => Ok(Out::Failed(t)),
                Out::Deleted => wrong(self.alloc, "fold", Kind::Deleted),
                Out::Nothing => wrong(self.alloc, "fold", Kind::Nothing),
            },
            _ => wrong(self.alloc, "fold", kind_of(v)),
        }
    }

    /// The tally with one element more.
    fn tallied(&self, f: &Arg<Query>, tally: Val, item: &Val, c: &Ctx<'_>) -> Result<Out, NoMemory>
        requires { Serves self.now.room (F.pre self.now.eval) (F.post self.now.eval) }
        ensures { IfOk result (λ o. o ≡ spec.tallied (views.arg_of f.now) (seen c.now) tally item.now) }
    {
        let pair = tally_element(self.alloc, tally, item)?;
        match limited(self.alloc, "fold", pair)? {
            Out::Value(pair) => match self.element(f, &pair, c)? {
                Out::Value(v) => Ok(Out::Value(v)),
                Out::Failed(t) => Ok(Out::Failed(t)),
                Out::Deleted => wrong(self.alloc, "fold", Kind::Deleted),
                Out::Nothing => wrong(self.alloc, "fold", Kind::Nothing),
            },
            Out::Failed(t) => Ok(Out::Failed(t)),
            Out::Deleted => wrong(self.alloc, "fold", Kind::Deleted),
            Out::Nothing => wrong(self.alloc, "fold", Kind::Nothing),
        }
    }

    /// The tally over the elements.
    fn folded(
        &self,
        f: &Arg<Query>,
        start: Val,
        items: &Items<Val>,
        c: &Ctx<'_>,
    ) -> Result<Out, NoMemory>
        requires { Serves self.now.room (F.pre self.now.eval) (F.post self.now.eval) }
        ensures { IfOk result (λ o. o ≡ spec.folded (views.arg_of f.now) items.now (seen c.now) (out.Value start)) }
    {
        let mut tally = start;
        for item in items.as_slice() {
            match self.tallied(f, tally, item, c)? {
                Out::Value(v) => tally = v,
                o => return Ok(o),
            }
        }
        Ok(Out::Value(tally))
    }
}
