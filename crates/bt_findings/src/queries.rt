//! What is found in queries.

ghost use Rattle.std.specs.Prelude.{◌≡◌, ◌++◌, [], ◌∷◌, map, flat_map, OnOk};
ghost use Rattle.bt_calls.specs.Shapes.{shape};
ghost use Rattle.bt_findings.specs.Found as spec;
ghost use Rattle.bt_findings.specs.Found.{findings};
ghost use Rattle.bt_findings.specs.Steps as steps;
ghost use Rattle.bt_findings.specs.Steps.{Walks, each};

use crate::calls::{function_call, method_call, push, word};
use crate::finding::{Finding, Findings};
use crate::walker::Walker;
use bt_ports::NoMemory;
use bt_tree::{Arg, Branch, Case, Member, Query, Suffix, Term, Word};
use sqlite_items::Boxed;
use std::alloc::Global;

impl<F: Fn(Global, &mut Findings, &Query, usize) -> Result<(), NoMemory>> Walker<F> {
    fn queries(&self, out: &mut Findings, queries: &[Query]) -> Result<(), NoMemory>
        requires { Walks self.now.room (F.pre self.now.walk) (F.post self.now.walk) }
        ensures { OnOk result (out.new.list ≡ each findings out.old.list queries.now) }
    {
        for q in queries {
            self.query(out, q)?;
        }
        Ok(())
    }

    fn arg(&self, out: &mut Findings, arg: &Arg<Query>) -> Result<(), NoMemory>
        requires { Walks self.now.room (F.pre self.now.walk) (F.post self.now.walk) }
        ensures { OnOk result (out.new.list ≡ out.old.list ++ steps.arg arg.now) }
    {
        match arg {
            Arg::Query(q) => self.query(out, q),
            Arg::Lambda(_, q) => self.query(out, q),
        }
    }

    fn args(&self, out: &mut Findings, args: &[Arg<Query>]) -> Result<(), NoMemory>
        requires { Walks self.now.room (F.pre self.now.walk) (F.post self.now.walk) }
        ensures { OnOk result (out.new.list ≡ each steps.arg out.old.list args.now) }
    {
        for arg in args {
            self.arg(out, arg)?;
        }
        Ok(())
    }

    fn call(&self, out: &mut Findings, name: &Word, args: &[Arg<Query>]) -> Result<(), NoMemory>
        requires { Walks self.now.room (F.pre self.now.walk) (F.post self.now.walk) }
        ensures { OnOk result (out.new.list ≡ each steps.arg (out.old.list ++ spec.function_call name.now (map shape args.now)) args.now) }
    {
        function_call(self.alloc, out, name, args)?;
        self.args(out, args)
    }

    fn method(&self, out: &mut Findings, name: &Word, args: &[Arg<Query>]) -> Result<(), NoMemory>
        requires { Walks self.now.room (F.pre self.now.walk) (F.post self.now.walk) }
        ensures { OnOk result (out.new.list ≡ each steps.arg (out.old.list ++ spec.method_call name.now (map shape args.now)) args.now) }
    {
        method_call(self.alloc, out, name, args)?;
        self.args(out, args)
    }

    fn suffix(&self, out: &mut Findings, suffix: &Suffix<Query>) -> Result<(), NoMemory>
        requires { Walks self.now.room (F.pre self.now.walk) (F.post self.now.walk) }
        ensures { OnOk result (out.new.list ≡ out.old.list ++ steps.suffix suffix.now) }
    {
        match suffix {
            Suffix::Name(_) | Suffix::Quoted(_) | Suffix::Int(_) => Ok(()),
            Suffix::Method(name, args) => self.method(out, name, args.as_slice()),
            Suffix::Within(arg) => self.arg(out, arg),
        }
    }

    fn suffixes(&self, out: &mut Findings, suffixes: &[Suffix<Query>]) -> Result<(), NoMemory>
        requires { Walks self.now.room (F.pre self.now.walk) (F.post self.now.walk) }
        ensures { OnOk result (out.new.list ≡ each steps.suffix out.old.list suffixes.now) }
    {
        for suffix in suffixes {
            self.suffix(out, suffix)?;
        }
        Ok(())
    }

    fn item(
        &self,
        out: &mut Findings,
        head: &Query,
        suffixes: &[Suffix<Query>],
    ) -> Result<(), NoMemory>
        requires { Walks self.now.room (F.pre self.now.walk) (F.post self.now.walk) }
        ensures { OnOk result (out.new.list ≡ each steps.suffix (out.old.list ++ findings head.now) suffixes.now) }
    {
        self.query(out, head)?;
        self.suffixes(out, suffixes)
    }

    fn members(&self, out: &mut Findings, members: &[Member<Query>]) -> Result<(), NoMemory>
        requires { Walks self.now.room (F.pre self.now.walk) (F.post self.now.walk) }
        ensures { OnOk result (out.new.list ≡ each steps.member out.old.list members.now) }
    {
        for member in members {
            self.query(out, &member.query)?;
        }
        Ok(())
    }

    fn terms(&self, out: &mut Findings, terms: &[Term<Query>]) -> Result<(), NoMemory>
        requires { Walks self.now.room (F.pre self.now.walk) (F.post self.now.walk) }
        ensures { OnOk result (out.new.list ≡ each steps.term out.old.list terms.now) }
    {
        for term in terms {
            self.query(out, &term.query)?;
        }
        Ok(())
    }

    /// Operands between the operators of one level.
    fn numeric(
        &self,
        out: &mut Findings,
        first: &Query,
        terms: &[Term<Query>],
    ) -> Result<(), NoMemory>
        requires { Walks self.now.room (F.pre self.now.walk) (F.post self.now.walk) }
        ensures { OnOk result (out.new.list ≡ each steps.term (out.old.list ++ findings first.now) terms.now) }
    {
        self.query(out, first)?;
        self.terms(out, terms)
    }

    /// Operands between one operator.
    fn chain(&self, out: &mut Findings, first: &Query, qs: &[Query]) -> Result<(), NoMemory>
        requires { Walks self.now.room (F.pre self.now.walk) (F.post self.now.walk) }
        ensures { OnOk result (out.new.list ≡ each findings (out.old.list ++ findings first.now) qs.now) }
    {
        self.query(out, first)?;
        self.queries(out, qs)
    }

    fn both(&self, out: &mut Findings, first: &Query, second: &Query) -> Result<(), NoMemory>
        requires { Walks self.now.room (F.pre self.now.walk) (F.post self.now.walk) }
        ensures { OnOk result (out.new.list ≡ (out.old.list ++ findings first.now) ++ findings second.now) }
    {
        self.query(out, first)?;
        self.query(out, second)
    }

    fn optional(&self, out: &mut Findings, q: &Option<Boxed<Query>>) -> Result<(), NoMemory>
        requires { Walks self.now.room (F.pre self.now.walk) (F.post self.now.walk) }
        ensures { OnOk result (out.new.list ≡ out.old.list ++ steps.optional q.now) }
    {
        match q {
            Some(q) => self.query(out, q.get()),
            None => Ok(()),
        }
    }

    fn case(&self, out: &mut Findings, case: &Case<Query>) -> Result<(), NoMemory>
        requires { Walks self.now.room (F.pre self.now.walk) (F.post self.now.walk) }
        ensures { OnOk result (out.new.list ≡ out.old.list ++ steps.one_case case.now) }
    {
        match case {
            Case::Any(gives) => self.query(out, gives),
            Case::When(test, gives) => self.both(out, test, gives),
        }
    }

    fn cases(&self, out: &mut Findings, cases: &[Case<Query>]) -> Result<(), NoMemory>
        requires { Walks self.now.room (F.pre self.now.walk) (F.post self.now.walk) }
        ensures { OnOk result (out.new.list ≡ each steps.one_case out.old.list cases.now) }
    {
        for case in cases {
            self.case(out, case)?;
        }
        Ok(())
    }

    fn match_query(
        &self,
        out: &mut Findings,
        subject: &Option<Boxed<Query>>,
        cases: &[Case<Query>],
    ) -> Result<(), NoMemory>
        requires { Walks self.now.room (F.pre self.now.walk) (F.post self.now.walk) }
        ensures { OnOk result (out.new.list ≡ each steps.one_case (out.old.list ++ steps.optional subject.now) cases.now) }
    {
        self.optional(out, subject)?;
        self.cases(out, cases)
    }

    fn branch(&self, out: &mut Findings, branch: &Branch<Query>) -> Result<(), NoMemory>
        requires { Walks self.now.room (F.pre self.now.walk) (F.post self.now.walk) }
        ensures { OnOk result (out.new.list ≡ out.old.list ++ steps.branch branch.now) }
    {
        self.both(out, &branch.test, &branch.gives)
    }

    fn branches(&self, out: &mut Findings, branches: &[Branch<Query>]) -> Result<(), NoMemory>
        requires { Walks self.now.room (F.pre self.now.walk) (F.post self.now.walk) }
        ensures { OnOk result (out.new.list ≡ each steps.branch out.old.list branches.now) }
    {
        for branch in branches {
            self.branch(out, branch)?;
        }
        Ok(())
    }

    fn if_query(
        &self,
        out: &mut Findings,
        branches: &[Branch<Query>],
        last: &Option<Boxed<Query>>,
    ) -> Result<(), NoMemory>
        requires { Walks self.now.room (F.pre self.now.walk) (F.post self.now.walk) }
        ensures { OnOk result (out.new.list ≡ each steps.branch out.old.list branches.now ++ steps.optional last.now) }
    {
        self.branches(out, branches)?;
        self.optional(out, last)
    }

    fn variable(&self, out: &mut Findings, name: &Word) -> Result<(), NoMemory>
        requires { Walks self.now.room (F.pre self.now.walk) (F.post self.now.walk) }
        ensures { OnOk result (out.new.list ≡ out.old.list ++ Finding.Variable name.now ∷ []) }
    {
        push(
            out,
            Finding::Variable(word(self.alloc, name.at, &name.text)?),
        )
    }

    /// A query, by its variant.
    pub fn node(&self, out: &mut Findings, q: &Query) -> Result<(), NoMemory>
        requires { Walks self.now.room (F.pre self.now.walk) (F.post self.now.walk) }
        ensures { OnOk result (out.new.list ≡ out.old.list ++ findings q.now) }
    {
        match q {
            Query::Null
            | Query::True
            | Query::False
            | Query::Int(_)
            | Query::Quoted(_)
            | Query::This
            | Query::Name(_)
            | Query::Metadata
            | Query::Meta(_) => Ok(()),
            Query::Root(at) => push(out, Finding::Root(*at)),
            Query::Var(name) => self.variable(out, name),
            Query::Call(name, args) => self.call(out, name, args.as_slice()),
            Query::Paren(q) => self.query(out, q.get()),
            Query::List(qs) => self.queries(out, qs.as_slice()),
            Query::Object(members) => self.members(out, members.as_slice()),
            Query::Item(head, suffixes) => self.item(out, head.get(), suffixes.as_slice()),
            Query::Prefix(_, q) => self.query(out, q.get()),
            Query::Product(first, terms) => self.numeric(out, first.get(), terms.as_slice()),
            Query::Sum(first, terms) => self.numeric(out, first.get(), terms.as_slice()),
            Query::Compare(left, _, right) => self.both(out, left.get(), right.get()),
            Query::And(first, qs) => self.chain(out, first.get(), qs.as_slice()),
            Query::Or(first, qs) => self.chain(out, first.get(), qs.as_slice()),
            Query::Coalesce(first, qs) => self.chain(out, first.get(), qs.as_slice()),
            Query::Match(subject, cases) => self.match_query(out, subject, cases.as_slice()),
            Query::If(branches, last) => self.if_query(out, branches.as_slice(), last),
        }
    }
}
