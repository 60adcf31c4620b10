//! Maps applied.
ghost use Rattle.std.specs.Prelude.{◌≡◌, IfOk};
ghost use Rattle.std.specs.Option.{option_copied};
ghost use Rattle.bt_contexts.specs.Seen.{seen, out_of};
ghost use Rattle.bt_meaning.specs.Maps as spec;
ghost use Rattle.bt_meaning.specs.Maps.{applied};
ghost use Rattle.bt_meaning.specs.Statements.{at_state};
ghost use Rattle.bt_meaning.specs.Value.{value};
ghost use Rattle.bt_queries.specs.Serves.{Serves};
ghost use Rattle.bt_queries.specs.Views as views;

use crate::evaluator::Evaluator;
use bt_contexts::state::{document, root_assigned, root_given, var_assigned};
use bt_contexts::{Ctx, Got, This};
use bt_kinds::kinds::{Kind, wrong};
use bt_meaning::{Root, State};
use bt_ports::NoMemory;
use bt_ports::text::Text;
use bt_tree::{Arg, MapStmt, Query, Stmt};
use bt_value::{Fields, Out, Val};
use sqlite_items::Items;
use std::alloc::Global;

/// The first argument where it is written as a text, and else the empty text.
pub fn literal_text(args: &Items<Arg<Query>>) -> &str
    ensures { result.now ≡ views.literal_text args.now }
{
    match args.as_slice() {
        [Arg::Query(Query::Quoted(w)), ..] => w.text.as_str(),
        _ => "",
    }
}

/// The body of the map of a name.
fn map_of<'a>(maps: &'a [Stmt], name: &str) -> Option<&'a Items<MapStmt>>
    ensures { option_copied result ≡ spec.map_of name.now maps.now }
{
    for s in maps {
        if let Stmt::Map {
            name: own,
            body,
            ..
        } = s
        {
            if name == own.as_str() {
                return Some(body);
            }
        }
    }
    None
}

impl<F: for<'a> Fn(Global, usize, &Query, &Ctx<'a>) -> Result<Got<'a>, NoMemory>> Evaluator<F> {
    /// What `apply` gives.
    #[inline(never)]
    pub fn apply(
        &self,
        args: &Items<Arg<Query>>,
        got: Got<'_>,
        c: &Ctx<'_>,
    ) -> Result<Out, NoMemory>
        requires { Serves self.now.room (F.pre self.now.eval) (F.post self.now.eval) }
        ensures { IfOk result (λ o. o ≡ views.apply_value args.now (seen c.now) (out_of got.entry)) }
    {
        let name = literal_text(args);
        match got {
            Got::Known(v) => self.run_map(name, v, c),
            Got::Made(Out::Value(v)) => self.run_map(name, &v, c),
            Got::Made(Out::Failed(t)) => Ok(Out::Failed(t)),
            Got::Made(Out::Deleted) => wrong(self.alloc, "apply", Kind::Deleted),
            Got::Made(Out::Nothing) => wrong(self.alloc, "apply", Kind::Nothing),
        }
    }

    /// What the map of a name gives of a value.
    #[tactic(auto, using(crate::proofs::Nesting::applied_none, crate::proofs::Nesting::applied_step))]
    fn run_map<'a>(&self, name: &str, v: &'a Val, c: &Ctx<'a>) -> Result<Out, NoMemory>
        requires { Serves self.now.room (F.pre self.now.eval) (F.post self.now.eval) }
        ensures { IfOk result (λ o. o ≡ applied c.now.left c.now.maps.now c.now.msg.now c.now.spot name.now v.now) }
    {
        if c.left == 0 {
            return Ok(Out::Nothing);
        }
        match map_of(c.maps, name) {
            None => Ok(Out::Nothing),
            Some(body) => self.body(
                body.as_slice(),
                &Ctx {
                    this: This::Known(v),
                    names: None,
                    vars: None,
                    root: None,
                    left: c.left - 1,
                    ..*c
                },
            ),
        }
    }

    /// What a map's body gives.
    fn body(&self, body: &[MapStmt], c: &Ctx<'_>) -> Result<Out, NoMemory>
        requires { Serves self.now.room (F.pre self.now.eval) (F.post self.now.eval) }
        ensures { IfOk result (λ o. o ≡ views.body_value body.now (seen c.now)) }
    {
        let mut state = State {
            root: Root::Unset,
            meta: Fields::new(self.alloc),
            vars: Fields::new(self.alloc),
        };
        for s in body {
            match self.map_step(s, state, c)? {
                Ok(next) => state = next,
                Err(t) => return Ok(Out::Failed(t)),
            }
        }
        let State { root, .. } = state;
        Ok(root_given(root))
    }

    fn map_step(
        &self,
        s: &MapStmt,
        state: State,
        c: &Ctx<'_>,
    ) -> Result<Result<State, Text>, NoMemory>
        requires { Serves self.now.room (F.pre self.now.eval) (F.post self.now.eval) }
        ensures { IfOk result (λ r. r ≡ spec.map_step (seen c.now) s.now state) }
    {
        match s {
            MapStmt::Root { path, query, .. } => {
                let o = self.at_state(query, &state, c)?;
                root_assigned(self.alloc, path, o, state)
            }
            MapStmt::Let { name, query } => {
                let o = self.at_state(query, &state, c)?;
                var_assigned(self.alloc, name.as_str(), o, state)
            }
        }
    }

    /// What a statement's query gives, with the root and the variables so far.
    fn at_state(&self, q: &Query, state: &State, c: &Ctx<'_>) -> Result<Out, NoMemory>
        requires { Serves self.now.room (F.pre self.now.eval) (F.post self.now.eval) }
        ensures { IfOk result (λ o. o ≡ value q.now (at_state (seen c.now) state.now)) }
    {
        self.out(
            q,
            &Ctx {
                vars: Some(&state.vars),
                root: document(&state.root),
                ..*c
            },
        )
    }
}
