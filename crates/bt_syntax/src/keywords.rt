//! The reserved names.
ghost use Rattle.std.specs.Prelude.{◌≡◌, Some};
ghost use Rattle.bt_value.specs.Keys.{find};
ghost use Rattle.bt_syntax.specs.Keywords.{keywords};

/// A reserved name, which is no name of a value.
#[derive(Clone, Copy, Debug, PartialEq, Eq)]
pub enum Keyword {
    /// `this`
    This,
    /// `root`
    Root,
    /// `match`
    Match,
    /// `if`
    If,
    /// `else`
    Else,
    /// `true`
    True,
    /// `false`
    False,
    /// `null`
    Null,
    /// `let`
    Let,
    /// `meta`
    Meta,
    /// `map`
    Map,
    /// `_`
    Underscore,
}

/// The reserved name that a name is, and nothing exactly where it is none. It takes no memory.
pub fn keyword_of(name: &str) -> Option<Keyword>
    ensures { result ≡ find name.now keywords }
{
    match name {
        "this" => Some(Keyword::This),
        "root" => Some(Keyword::Root),
        "match" => Some(Keyword::Match),
        "if" => Some(Keyword::If),
        "else" => Some(Keyword::Else),
        "true" => Some(Keyword::True),
        "false" => Some(Keyword::False),
        "null" => Some(Keyword::Null),
        "let" => Some(Keyword::Let),
        "meta" => Some(Keyword::Meta),
        "map" => Some(Keyword::Map),
        "_" => Some(Keyword::Underscore),
        _ => None,
    }
}
