//! A mapping run on a message.
ghost use Rattle.std.specs.Prelude.{◌≡◌, IfOk, Ok};
ghost use Rattle.std.specs.Option.{option_copied};
ghost use Rattle.bt_contexts.specs.Seen.{seen, this_seen, out_of};
ghost use Rattle.bt_meaning.specs.Contents.{document, this_of};
ghost use Rattle.bt_meaning.specs.Mapped as spec;
ghost use Rattle.bt_meaning.specs.Mapped.{mapped};
ghost use Rattle.bt_mappings.specs.Checked.{answer, checked};
ghost use Rattle.bt_meaning.specs.declared.message.Mapped.TheVariants as made;

use crate::asking::may_ask;
use crate::statements::{body, maps_of};
use bt_contexts::content::{content_of, document, handed_root, this_failure};
use bt_contexts::got::{is_true, passes};
use bt_contexts::{Ctx, Got, This};
use bt_meaning::{Mapped, Root, Spot, State};
use bt_ports::NoMemory;
use bt_ports::blob::Blob;
use bt_ports::text::Text;
use bt_queries::eval;
use bt_ready::Ready;
use bt_tree::Mapping;
use bt_value::{Fields, Members, Msg, Out, Val, copy_members};
use std::alloc::Global;

/// The top of a mapping, with no names, no variables and an unset root. It takes no memory.
pub(crate) fn top<'a>(r: &'a Ready, msg: &'a Msg, this: This<'a>, spot: Spot) -> Ctx<'a>
    requires { this_seen this msg.now ≡ this_of msg.now.content }
    ensures { seen result ≡ spec.top r.now.mapping msg.now spot }
{
    let maps = maps_of(&r.mapping);
    Ctx {
        this,
        names: None,
        vars: None,
        root: None,
        msg,
        maps,
        patterns: r.patterns.as_slice(),
        left: maps.len(),
        spot,
    }
}

fn start_root(alloc: Global, root: Option<&Msg>) -> Result<Root, NoMemory>
    ensures { IfOk result (λ r. r ≡ spec.start_root (option_copied root.entry)) }
{
    match root {
        None => Ok(Root::Unset),
        Some(m) => handed_root(alloc, m.content.as_slice()),
    }
}

fn start(alloc: Global, msg: &Msg, root: Option<&Msg>) -> Result<State, NoMemory>
    ensures { IfOk result (λ s. s ≡ spec.start msg.now (option_copied root.entry)) }
{
    let base = root.unwrap_or(msg);
    let meta = copy_members(alloc, &base.meta)?;
    Ok(State {
        root: start_root(alloc, root)?,
        meta,
        vars: Fields::new(alloc),
    })
}

fn copy_flag(alloc: Global, flag: &Option<Text>) -> Result<Option<Text>, NoMemory>
    ensures { IfOk result (λ f. f ≡ flag.now) }
{
    match flag {
        Some(text) => Ok(Some(Text::make(alloc, text.as_str())?)),
        None => Ok(None),
    }
}

/// The message with another content and other metadata.
fn changed(alloc: Global, base: &Msg, content: Blob, meta: Members) -> Result<Mapped, NoMemory>
    ensures { IfOk result (λ m. m ≡ made.Changed (record base.now { content = content; meta = meta })) }
{
    Ok(Mapped::Changed(Msg {
        content,
        meta,
        flag: copy_flag(alloc, &base.flag)?,
    }))
}

/// The message with other metadata.
fn kept(alloc: Global, base: &Msg, meta: Members) -> Result<Mapped, NoMemory>
    ensures { IfOk result (λ m. m ≡ made.Changed (record base.now { meta = meta })) }
{
    let content = Blob::make(alloc, base.content.as_slice())?;
    changed(alloc, base, content, meta)
}

fn ended(alloc: Global, base: &Msg, meta: Members, root: Root) -> Result<Mapped, NoMemory>
    ensures { IfOk result (λ m. m ≡ spec.ended base.now meta root) }
{
    match root {
        Root::Gone => Ok(Mapped::Dropped),
        Root::Set(v) => match content_of(alloc, v)? {
            Some(content) => changed(alloc, base, content, meta),
            None => Ok(Mapped::Flagged(Text::make(alloc, "root: bad text")?)),
        },
        Root::Unset => kept(alloc, base, meta),
        Root::Unread(_) => kept(alloc, base, meta),
    }
}

fn finished(alloc: Global, base: &Msg, r: Result<State, Text>) -> Result<Mapped, NoMemory>
    ensures { IfOk result (λ m. m ≡ spec.finished base.now r) }
{
    match r {
        Ok(state) => {
            let State { root, meta, .. } = state;
            ended(alloc, base, meta, root)
        }
        Err(t) => Ok(Mapped::Flagged(t)),
    }
}

/// The mapping run where `this` was read before.
fn run_read(
    alloc: Global,
    m: &Mapping,
    msg: &Msg,
    root: Option<&Msg>,
    c: &Ctx<'_>,
    spot: Spot,
) -> Result<Mapped, NoMemory>
    requires { seen c.now ≡ spec.top m.now msg.now spot }
    ensures { IfOk result (λ r. r ≡ mapped m.now msg.now (option_copied root.entry) spot) }
{
    let state = start(alloc, msg, root)?;
    let r = body(alloc, m, state, c)?;
    finished(alloc, root.unwrap_or(msg), r)
}

/// Runs a mapping on a message whose document was read before, as `run_mapping` does.
pub fn run_on_document<'a>(
    alloc: Global,
    r: &'a Ready,
    msg: &'a Msg,
    value: &'a Val,
    root: Option<&Msg>,
    spot: Spot,
) -> Result<Mapped, NoMemory>
    requires { document msg.now.content ≡ Ok value.now }
    ensures { IfOk result (λ m. m ≡ mapped r.now.mapping msg.now (option_copied root.entry) spot) }
{
    let c = top(r, msg, This::Known(value), spot);
    run_read(alloc, &r.mapping, msg, root, &c, spot)
}

/// Runs a mapping on a message.
///
/// With another message handed in as `root`, the result builds on that one's document, metadata and
/// flag, while `this`, `@` and the functions speak of `msg`. A statement that fails leaves the message
/// as it was, and its text names the statement's line. The content is read once at most, and not at all
/// where no statement asks for it.
pub fn run_mapping<'a>(
    alloc: Global,
    r: &'a Ready,
    msg: &'a Msg,
    root: Option<&Msg>,
    spot: Spot,
) -> Result<Mapped, NoMemory>
    ensures { IfOk result (λ m. m ≡ mapped r.now.mapping msg.now (option_copied root.entry) spot) }
{
    if !may_ask(&r.mapping) {
        let c = top(r, msg, This::Content, spot);
        return run_read(alloc, &r.mapping, msg, root, &c, spot);
    }
    match document(alloc, msg.content.as_slice())? {
        Ok(v) => run_on_document(alloc, r, msg, &v, root, spot),
        Err(fault) => {
            let c = top(r, msg, This::Failed(this_failure(fault)), spot);
            run_read(alloc, &r.mapping, msg, root, &c, spot)
        }
    }
}

/// What a mapping that is one query gives at its top.
pub(crate) fn query_out<'a>(alloc: Global, m: &Mapping, c: &Ctx<'a>) -> Result<Got<'a>, NoMemory>
    ensures { IfOk result (λ g. out_of g ≡ spec.query_in m.now (seen c.now)) }
{
    match m {
        Mapping::Query { query, .. } => eval(alloc, query, c),
        Mapping::Statements(_) => Ok(Got::Made(Out::Nothing)),
    }
}

/// What an outcome says as a check's.
fn answer(got: Got<'_>) -> Result<bool, Text>
    ensures { result ≡ answer (out_of got.entry) }
{
    match got {
        Got::Known(v) => Ok(is_true(v)),
        Got::Made(Out::Value(v)) => Ok(is_true(&v)),
        Got::Made(Out::Failed(t)) => Err(t),
        Got::Made(Out::Deleted) => Ok(false),
        Got::Made(Out::Nothing) => Ok(false),
    }
}

/// What a mapping that is one query says in a context, as a check.
fn checked_in(alloc: Global, m: &Mapping, c: &Ctx<'_>) -> Result<Result<bool, Text>, NoMemory>
    ensures { IfOk result (λ b. b ≡ answer (spec.query_in m.now (seen c.now))) }
{
    Ok(answer(query_out(alloc, m, c)?))
}

/// What a mapping that is one query says on a message, as a check: whether it gives true, or the text
/// with which it fails.
///
/// A mapping of statements doesn't pass.
pub fn checked<'a>(
    alloc: Global,
    r: &'a Ready,
    msg: &'a Msg,
    spot: Spot,
) -> Result<Result<bool, Text>, NoMemory>
    ensures { IfOk result (λ b. b ≡ checked r.now.mapping msg.now spot) }
{
    if !may_ask(&r.mapping) {
        let c = top(r, msg, This::Content, spot);
        return checked_in(alloc, &r.mapping, &c);
    }
    match document(alloc, msg.content.as_slice())? {
        Ok(v) => {
            let c = top(r, msg, This::Known(&v), spot);
            checked_in(alloc, &r.mapping, &c)
        }
        Err(fault) => {
            let c = top(r, msg, This::Failed(this_failure(fault)), spot);
            checked_in(alloc, &r.mapping, &c)
        }
    }
}

/// Whether a mapping that is one query gives true on a message.
///
/// A query that fails or gives anything else doesn't pass, nor does a mapping of statements.
#[tactic(auto, using(crate::proofs::Checks::passes_as, crate::proofs::Checks::fails_as))]
pub fn check<'a>(alloc: Global, r: &'a Ready, msg: &'a Msg, spot: Spot) -> Result<bool, NoMemory>
    ensures { IfOk result (λ b. b ≡ spec.checks r.now.mapping msg.now spot) }
{
    match checked(alloc, r, msg, spot)? {
        Ok(passes) => Ok(passes),
        Err(_) => Ok(false),
    }
}

/// Whether a mapping may ask for the document of the message. No contract speaks of the answer: where it is no, a query
/// that asks all the same reads the content.
pub fn asks(r: &Ready) -> bool {
    may_ask(&r.mapping)
}

/// Whether a mapping that is one query gives true on a message, as [`check`] has it, where it is known what `this` gives.
pub fn check_seen<'a>(
    alloc: Global,
    r: &'a Ready,
    msg: &'a Msg,
    this: This<'a>,
    spot: Spot,
) -> Result<bool, NoMemory>
    requires { this_seen this msg.now ≡ this_of msg.now.content }
    ensures { IfOk result (λ b. b ≡ spec.checks r.now.mapping msg.now spot) }
{
    let c = top(r, msg, this, spot);
    let got = query_out(alloc, &r.mapping, &c)?;
    Ok(passes(&got))
}
