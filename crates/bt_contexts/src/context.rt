//! Where a query is evaluated, and what it gives.

use bt_meaning::Spot;
use bt_patterns::Pattern;
use bt_tree::Stmt;
use bt_value::{Members, Msg, Out, Val};

/// The names in force, the last first.
#[derive(Clone, Copy)]
pub enum Names<'a> {
    /// One alone.
    First(&'a str, &'a Val),
    /// One more.
    More(&'a str, &'a Val, &'a Names<'a>),
}

/// A document that was read before.
#[derive(Clone, Copy)]
pub enum Read<'a> {
    /// The value that it is.
    Known(&'a Val),
    /// The text with which asking for it fails.
    Failed(&'a str),
}

/// What `this` stands for.
#[derive(Clone, Copy)]
pub enum This<'a> {
    /// The message's content, read anew each time that it is asked for.
    Content,
    /// The value that was read, or that is in hand.
    Known(&'a Val),
    /// The text with which the content fails, which was read.
    Failed(&'a str),
}

/// Where a query is evaluated.
#[derive(Clone, Copy)]
pub struct Ctx<'a> {
    /// What `this` stands for.
    pub this: This<'a>,
    /// The names in force.
    pub names: Option<&'a Names<'a>>,
    /// The variables.
    pub vars: Option<&'a Members>,
    /// What `root` stands for, and null without one.
    pub root: Option<Read<'a>>,
    /// The message as it came in.
    pub msg: &'a Msg,
    /// The statements of the mapping, its maps among them.
    pub maps: &'a [Stmt],
    /// The patterns of the mapping, which were built before.
    pub patterns: &'a [Pattern],
    /// How deep maps may still nest.
    pub left: usize,
    /// The message's place, and the moment.
    pub spot: Spot,
}

/// What a query gives: a value that stands in the context, or an outcome of its own.
#[derive(Drop)]
pub enum Got<'a> {
    /// A value that stands in the context.
    Known(&'a Val),
    /// What was made.
    Made(Out),
}
