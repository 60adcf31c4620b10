//! The text of queries.

ghost use Rattle.std.specs.Prelude.{◌≡◌, ◌++◌, [], ◌∷◌, codes, drop, map, Option, OnOk, OnErr};
ghost use Rattle.bt_lexer.specs.declared.token.Kind.TheVariants as kinds;
ghost use Rattle.bt_syntax.specs.declared.keywords.Keyword.TheVariants as keywords;
ghost use Rattle.bt_tree.specs.Parts.{in_option, in_branch, in_suffix};
ghost use Rattle.bt_words.specs.Printing as print;
ghost use Rattle.bt_print.specs.Parts as parts;
ghost use Rattle.bt_print.specs.Steps.{Prints, after, all_after, joined, listed};

use crate::leaves::{int, key, text};
use crate::marks::{op_mark, prefix_mark};
use crate::printer::Printer;
use bt_ports::NoMemory;
use bt_ports::text::Text;
use bt_tree::{Arg, Branch, Case, Key, Member, Query, Suffix, Term, Word};
use bt_value::{Op, PrefixOp};
use sqlite_items::Boxed;
use std::alloc::Global;

/// Whether a digit stands at a place of a text.
fn digit_at(text: &str, at: usize) -> bool
    ensures { result ≡ print.begins_with_digit (drop at text.now) }
{
    match text.as_bytes().get(at) {
        Some(c) => matches!(c, b'0'..=b'9'),
        None => false,
    }
}

fn begin_with_number(suffixes: &[Suffix<Query>]) -> bool
    ensures { result ≡ print.begins_with_int (map (in_suffix print.query) suffixes.now) }
{
    match suffixes {
        [Suffix::Int(_), ..] => true,
        _ => false,
    }
}

/// The blank before the `.` that stands between a number and a number, behind a head that was
/// printed from a place on.
fn gap(out: &mut Text, from: usize, suffixes: &[Suffix<Query>]) -> Result<(), NoMemory>
    ensures { OnOk result (out.new ≡ after out.old (print.gap_between
        (print.begins_with_digit (drop from out.old))
        (print.begins_with_int (map (in_suffix print.query) suffixes.now)))) }
{
    match (digit_at(out.as_str(), from), begin_with_number(suffixes)) {
        (true, true) => out.push_str(" "),
        _ => Ok(()),
    }
}

impl<F: Fn(Global, &mut Text, &Query, usize) -> Result<(), NoMemory>> Printer<F> {
    /// Operands, each behind an operator.
    fn operands(&self, out: &mut Text, mark: &str, qs: &[Query]) -> Result<(), NoMemory>
        requires { Prints self.now.room (F.pre self.now.query) (F.post self.now.query) }
        ensures { OnOk result (out.new ≡ joined print.query mark.now out.old qs.now) }
    {
        for q in qs {
            out.push_str(mark)?;
            self.query(out, q)?;
        }
        Ok(())
    }

    /// Queries with commas between them.
    fn queries(&self, out: &mut Text, qs: &[Query]) -> Result<(), NoMemory>
        requires { Prints self.now.room (F.pre self.now.query) (F.post self.now.query) }
        ensures { OnOk result (out.new ≡ listed print.query (codes ", ") out.old qs.now) }
    {
        let Some((first, rest)) = qs.split_first() else {
            return Ok(());
        };
        self.query(out, first)?;
        for q in rest {
            out.push_str(", ")?;
            self.query(out, q)?;
        }
        Ok(())
    }

    fn list(&self, out: &mut Text, qs: &[Query]) -> Result<(), NoMemory>
        requires { Prints self.now.room (F.pre self.now.query) (F.post self.now.query) }
        ensures { OnOk result (out.new ≡ after out.old (print.bracketed kinds.LeftBracket kinds.RightBracket (print.between print.comma (map print.query qs.now)))) }
    {
        out.push_str("[")?;
        self.queries(out, qs)?;
        out.push_str("]")
    }

    fn paren(&self, out: &mut Text, q: &Query) -> Result<(), NoMemory>
        requires { Prints self.now.room (F.pre self.now.query) (F.post self.now.query) }
        ensures { OnOk result (out.new ≡ after out.old (print.bracketed kinds.LeftParen kinds.RightParen (print.query q.now))) }
    {
        out.push_str("(")?;
        self.query(out, q)?;
        out.push_str(")")
    }

    fn arg(&self, out: &mut Text, arg: &Arg<Query>) -> Result<(), NoMemory>
        requires { Prints self.now.room (F.pre self.now.query) (F.post self.now.query) }
        ensures { OnOk result (out.new ≡ after out.old (parts.arg arg.now)) }
    {
        match arg {
            Arg::Query(q) => self.query(out, q),
            Arg::Lambda(name, q) => {
                out.push_str(name.as_str())?;
                out.push_str(" -> ")?;
                self.query(out, q)
            }
        }
    }

    fn args_inside(&self, out: &mut Text, args: &[Arg<Query>]) -> Result<(), NoMemory>
        requires { Prints self.now.room (F.pre self.now.query) (F.post self.now.query) }
        ensures { OnOk result (out.new ≡ listed parts.arg (codes ", ") out.old args.now) }
    {
        let Some((first, rest)) = args.split_first() else {
            return Ok(());
        };
        self.arg(out, first)?;
        for arg in rest {
            out.push_str(", ")?;
            self.arg(out, arg)?;
        }
        Ok(())
    }

    /// Arguments in parentheses.
    fn args(&self, out: &mut Text, args: &[Arg<Query>]) -> Result<(), NoMemory>
        requires { Prints self.now.room (F.pre self.now.query) (F.post self.now.query) }
        ensures { OnOk result (out.new ≡ after out.old (print.bracketed kinds.LeftParen kinds.RightParen (print.between print.comma (map parts.arg args.now)))) }
    {
        out.push_str("(")?;
        self.args_inside(out, args)?;
        out.push_str(")")
    }

    fn call(&self, out: &mut Text, name: &Word, args: &[Arg<Query>]) -> Result<(), NoMemory>
        requires { Prints self.now.room (F.pre self.now.query) (F.post self.now.query) }
        ensures { OnOk result (out.new ≡ after out.old (print.name name.now.text ∷ print.bracketed kinds.LeftParen kinds.RightParen (print.between print.comma (map parts.arg args.now)))) }
    {
        out.push_str(name.text.as_str())?;
        self.args(out, args)
    }

    fn member(&self, out: &mut Text, member: &Member<Query>) -> Result<(), NoMemory>
        requires { Prints self.now.room (F.pre self.now.query) (F.post self.now.query) }
        ensures { OnOk result (out.new ≡ after out.old (parts.member member.now)) }
    {
        text(self.alloc, out, member.key.as_str())?;
        out.push_str(": ")?;
        self.query(out, &member.query)
    }

    fn members(&self, out: &mut Text, members: &[Member<Query>]) -> Result<(), NoMemory>
        requires { Prints self.now.room (F.pre self.now.query) (F.post self.now.query) }
        ensures { OnOk result (out.new ≡ listed parts.member (codes ", ") out.old members.now) }
    {
        let Some((first, rest)) = members.split_first() else {
            return Ok(());
        };
        self.member(out, first)?;
        for member in rest {
            out.push_str(", ")?;
            self.member(out, member)?;
        }
        Ok(())
    }

    fn object(&self, out: &mut Text, members: &[Member<Query>]) -> Result<(), NoMemory>
        requires { Prints self.now.room (F.pre self.now.query) (F.post self.now.query) }
        ensures { OnOk result (out.new ≡ after out.old (print.bracketed kinds.LeftBrace kinds.RightBrace (print.between print.comma (map parts.member members.now)))) }
    {
        out.push_str("{")?;
        self.members(out, members)?;
        out.push_str("}")
    }

    fn within(&self, out: &mut Text, arg: &Arg<Query>) -> Result<(), NoMemory>
        requires { Prints self.now.room (F.pre self.now.query) (F.post self.now.query) }
        ensures { OnOk result (out.new ≡ after out.old (print.bracketed kinds.LeftParen kinds.RightParen (parts.arg arg.now))) }
    {
        out.push_str("(")?;
        self.arg(out, arg)?;
        out.push_str(")")
    }

    fn suffix(&self, out: &mut Text, suffix: &Suffix<Query>) -> Result<(), NoMemory>
        requires { Prints self.now.room (F.pre self.now.query) (F.post self.now.query) }
        ensures { OnOk result (out.new ≡ after out.old (parts.suffix suffix.now)) }
    {
        out.push_str(".")?;
        match suffix {
            Suffix::Name(name) => out.push_str(name.as_str()),
            Suffix::Quoted(s) => text(self.alloc, out, s.as_str()),
            Suffix::Int(n) => int(out, *n),
            Suffix::Method(name, args) => self.call(out, name, args.as_slice()),
            Suffix::Within(arg) => self.within(out, arg),
        }
    }

    fn suffixes(&self, out: &mut Text, suffixes: &[Suffix<Query>]) -> Result<(), NoMemory>
        requires { Prints self.now.room (F.pre self.now.query) (F.post self.now.query) }
        ensures { OnOk result (out.new ≡ all_after parts.suffix out.old suffixes.now) }
    {
        for suffix in suffixes {
            self.suffix(out, suffix)?;
        }
        Ok(())
    }

    fn item(&self, out: &mut Text, head: &Query, suffixes: &[Suffix<Query>]) -> Result<(), NoMemory>
        requires { Prints self.now.room (F.pre self.now.query) (F.post self.now.query) }
        ensures { OnOk result (out.new ≡ after out.old (print.query head.now
            ++ (print.gap_between (print.begins_with_digit (print.text_of (print.query head.now)))
            (print.begins_with_int (map (in_suffix print.query) suffixes.now))
            ++ print.all_of (map parts.suffix suffixes.now)))) }
    {
        let from = out.as_str().len();
        self.query(out, head)?;
        gap(out, from, suffixes)?;
        self.suffixes(out, suffixes)
    }

    /// An operator between blanks, and its right operand.
    fn operand(&self, out: &mut Text, op: Op, q: &Query) -> Result<(), NoMemory>
        requires { Prints self.now.room (F.pre self.now.query) (F.post self.now.query) }
        ensures { OnOk result (out.new ≡ after out.old (print.spaced (print.kind_of_op op) ++ print.query q.now)) }
    {
        out.push_str(" ")?;
        out.push_str(op_mark(op))?;
        out.push_str(" ")?;
        self.query(out, q)
    }

    fn terms(&self, out: &mut Text, terms: &[Term<Query>]) -> Result<(), NoMemory>
        requires { Prints self.now.room (F.pre self.now.query) (F.post self.now.query) }
        ensures { OnOk result (out.new ≡ all_after parts.term out.old terms.now) }
    {
        for term in terms {
            self.operand(out, term.op, &term.query)?;
        }
        Ok(())
    }

    /// Operands between the operators of one level.
    fn numeric(&self, out: &mut Text, first: &Query, terms: &[Term<Query>]) -> Result<(), NoMemory>
        requires { Prints self.now.room (F.pre self.now.query) (F.post self.now.query) }
        ensures { OnOk result (out.new ≡ after out.old (print.query first.now ++ print.all_of (map parts.term terms.now))) }
    {
        self.query(out, first)?;
        self.terms(out, terms)
    }

    fn compare(&self, out: &mut Text, left: &Query, op: Op, right: &Query) -> Result<(), NoMemory>
        requires { Prints self.now.room (F.pre self.now.query) (F.post self.now.query) }
        ensures { OnOk result (out.new ≡ after out.old (print.query left.now ++ (print.spaced (print.kind_of_op op) ++ print.query right.now))) }
    {
        self.query(out, left)?;
        self.operand(out, op, right)
    }

    fn prefix(&self, out: &mut Text, op: PrefixOp, q: &Query) -> Result<(), NoMemory>
        requires { Prints self.now.room (F.pre self.now.query) (F.post self.now.query) }
        ensures { OnOk result (out.new ≡ after out.old (print.mark (print.kind_of_prefix op) ∷ print.query q.now)) }
    {
        out.push_str(prefix_mark(op))?;
        self.query(out, q)
    }

    fn ands(&self, out: &mut Text, first: &Query, qs: &[Query]) -> Result<(), NoMemory>
        requires { Prints self.now.room (F.pre self.now.query) (F.post self.now.query) }
        ensures { OnOk result (out.new ≡ after out.old (print.query first.now ++ print.behind_each (print.spaced kinds.And) (map print.query qs.now))) }
    {
        self.query(out, first)?;
        self.operands(out, " && ", qs)
    }

    fn ors(&self, out: &mut Text, first: &Query, qs: &[Query]) -> Result<(), NoMemory>
        requires { Prints self.now.room (F.pre self.now.query) (F.post self.now.query) }
        ensures { OnOk result (out.new ≡ after out.old (print.query first.now ++ print.behind_each (print.spaced kinds.Or) (map print.query qs.now))) }
    {
        self.query(out, first)?;
        self.operands(out, " || ", qs)
    }

    fn pipes(&self, out: &mut Text, first: &Query, qs: &[Query]) -> Result<(), NoMemory>
        requires { Prints self.now.room (F.pre self.now.query) (F.post self.now.query) }
        ensures { OnOk result (out.new ≡ after out.old (print.query first.now ++ print.behind_each (print.spaced kinds.Pipe) (map print.query qs.now))) }
    {
        self.query(out, first)?;
        self.operands(out, " | ", qs)
    }

    fn when(&self, out: &mut Text, test: &Query, gives: &Query) -> Result<(), NoMemory>
        requires { Prints self.now.room (F.pre self.now.query) (F.post self.now.query) }
        ensures { OnOk result (out.new ≡ after out.old (print.query test.now
            ++ (print.spaced kinds.FatArrow ++ print.query gives.now))) }
    {
        self.query(out, test)?;
        out.push_str(" => ")?;
        self.query(out, gives)
    }

    fn case(&self, out: &mut Text, case: &Case<Query>) -> Result<(), NoMemory>
        requires { Prints self.now.room (F.pre self.now.query) (F.post self.now.query) }
        ensures { OnOk result (out.new ≡ after out.old (parts.one_case case.now)) }
    {
        match case {
            Case::Any(gives) => {
                out.push_str("_ => ")?;
                self.query(out, gives)
            }
            Case::When(test, gives) => self.when(out, test, gives),
        }
    }

    fn cases(&self, out: &mut Text, cases: &[Case<Query>]) -> Result<(), NoMemory>
        requires { Prints self.now.room (F.pre self.now.query) (F.post self.now.query) }
        ensures { OnOk result (out.new ≡ listed parts.one_case (codes ", ") out.old cases.now) }
    {
        let Some((first, rest)) = cases.split_first() else {
            return Ok(());
        };
        self.case(out, first)?;
        for case in rest {
            out.push_str(", ")?;
            self.case(out, case)?;
        }
        Ok(())
    }

    fn subject(&self, out: &mut Text, q: &Option<Boxed<Query>>) -> Result<(), NoMemory>
        requires { Prints self.now.room (F.pre self.now.query) (F.post self.now.query) }
        ensures { OnOk result (out.new ≡ after out.old (print.subject (in_option print.query q.now))) }
    {
        match q {
            Some(q) => {
                out.push_str(" ")?;
                self.query(out, q.get())
            }
            None => Ok(()),
        }
    }

    fn match_query(
        &self,
        out: &mut Text,
        subject: &Option<Boxed<Query>>,
        cases: &[Case<Query>],
    ) -> Result<(), NoMemory>
        requires { Prints self.now.room (F.pre self.now.query) (F.post self.now.query) }
        ensures { OnOk result (out.new ≡ after out.old (print.keyword keywords.Match ∷ (print.subject (in_option print.query subject.now) ++ print.block (print.between print.comma (map parts.one_case cases.now))))) }
    {
        out.push_str("match")?;
        self.subject(out, subject)?;
        out.push_str(" { ")?;
        self.cases(out, cases)?;
        out.push_str(" }")
    }

    /// A query in the braces of an `if`.
    fn block(&self, out: &mut Text, q: &Query) -> Result<(), NoMemory>
        requires { Prints self.now.room (F.pre self.now.query) (F.post self.now.query) }
        ensures { OnOk result (out.new ≡ after out.old (print.block (print.query q.now))) }
    {
        out.push_str(" { ")?;
        self.query(out, q)?;
        out.push_str(" }")
    }

    fn branch(&self, out: &mut Text, branch: &Branch<Query>) -> Result<(), NoMemory>
        requires { Prints self.now.room (F.pre self.now.query) (F.post self.now.query) }
        ensures { OnOk result (out.new ≡ after out.old (parts.branch branch.now)) }
    {
        out.push_str("if ")?;
        self.query(out, &branch.test)?;
        self.block(out, &branch.gives)
    }

    fn branches(&self, out: &mut Text, branches: &[Branch<Query>]) -> Result<(), NoMemory>
        requires { Prints self.now.room (F.pre self.now.query) (F.post self.now.query) }
        ensures { OnOk result (out.new ≡ listed parts.branch (codes " else ") out.old branches.now) }
    {
        let Some((first, rest)) = branches.split_first() else {
            return Ok(());
        };
        self.branch(out, first)?;
        for branch in rest {
            out.push_str(" else ")?;
            self.branch(out, branch)?;
        }
        Ok(())
    }

    fn last(&self, out: &mut Text, last: &Option<Boxed<Query>>) -> Result<(), NoMemory>
        requires { Prints self.now.room (F.pre self.now.query) (F.post self.now.query) }
        ensures { OnOk result (out.new ≡ after out.old (print.last_branch (in_option print.query last.now))) }
    {
        match last {
            Some(q) => {
                out.push_str(" else")?;
                self.block(out, q.get())
            }
            None => Ok(()),
        }
    }

    fn if_query(
        &self,
        out: &mut Text,
        branches: &[Branch<Query>],
        last: &Option<Boxed<Query>>,
    ) -> Result<(), NoMemory>
        requires { Prints self.now.room (F.pre self.now.query) (F.post self.now.query) }
        ensures { OnOk result (out.new ≡ after out.old (print.branches (map (in_branch print.query) branches.now) (in_option print.query last.now))) }
    {
        self.branches(out, branches)?;
        self.last(out, last)
    }

    fn var(&self, out: &mut Text, name: &Word) -> Result<(), NoMemory>
        requires { Prints self.now.room (F.pre self.now.query) (F.post self.now.query) }
        ensures { OnOk result (out.new ≡ after out.old (print.Token (print.placeless kinds.Var name.now.text) ∷ [])) }
    {
        out.push_str("$")?;
        out.push_str(name.text.as_str())
    }

    fn meta(&self, out: &mut Text, name: &Key) -> Result<(), NoMemory>
        requires { Prints self.now.room (F.pre self.now.query) (F.post self.now.query) }
        ensures { OnOk result (out.new ≡ after out.old (print.mark kinds.At ∷ print.Token (print.key_word name.now) ∷ [])) }
    {
        out.push_str("@")?;
        key(self.alloc, out, name)
    }

    /// A query, by its variant.
    pub fn node(&self, out: &mut Text, q: &Query) -> Result<(), NoMemory>
        requires { Prints self.now.room (F.pre self.now.query) (F.post self.now.query) }
        ensures { OnOk result (out.new ≡ after out.old (print.query q.now)) }
    {
        match q {
            Query::Null => out.push_str("null"),
            Query::True => out.push_str("true"),
            Query::False => out.push_str("false"),
            Query::Int(n) => int(out, *n),
            Query::Quoted(s) => text(self.alloc, out, s.text.as_str()),
            Query::This => out.push_str("this"),
            Query::Root(_) => out.push_str("root"),
            Query::Name(name) => out.push_str(name.text.as_str()),
            Query::Var(name) => self.var(out, name),
            Query::Metadata => out.push_str("@"),
            Query::Meta(name) => self.meta(out, name),
            Query::Call(name, args) => self.call(out, name, args.as_slice()),
            Query::Paren(q) => self.paren(out, q.get()),
            Query::List(qs) => self.list(out, qs.as_slice()),
            Query::Object(members) => self.object(out, members.as_slice()),
            Query::Item(head, suffixes) => self.item(out, head.get(), suffixes.as_slice()),
            Query::Prefix(op, q) => self.prefix(out, *op, q.get()),
            Query::Product(first, terms) => self.numeric(out, first.get(), terms.as_slice()),
            Query::Sum(first, terms) => self.numeric(out, first.get(), terms.as_slice()),
            Query::Compare(left, op, right) => self.compare(out, left.get(), *op, right.get()),
            Query::And(first, qs) => self.ands(out, first.get(), qs.as_slice()),
            Query::Or(first, qs) => self.ors(out, first.get(), qs.as_slice()),
            Query::Coalesce(first, qs) => self.pipes(out, first.get(), qs.as_slice()),
            Query::Match(subject, cases) => self.match_query(out, subject, cases.as_slice()),
            Query::If(branches, last) => self.if_query(out, branches.as_slice(), last),
        }
    }
}
