/// What a token is. The numbers are those of the productions in the grammar of W3C Turtle 1.1.
#[derive(Clone, Copy, Debug, PartialEq, Eq)]
pub enum TokenKind {
    /// `<..>`: IRIREF [18].
    Iri,
    /// A prefix and its colon alone, `a:` or `:`: PNAME_NS [139s].
    Namespace,
    /// A prefix, its colon and a local name, `a:b`: PNAME_LN [140s].
    PrefixedName,
    /// `_:b`: BLANK_NODE_LABEL [141s].
    BlankLabel,
    /// `@en-GB`, and so `@prefix` and `@base` too: LANGTAG [144s].
    LanguageTag,
    /// `+3`: INTEGER [19].
    Integer,
    /// `3.5`: DECIMAL [20].
    Decimal,
    /// `3e5`: DOUBLE [21].
    Double,
    /// `".."`: STRING_LITERAL_QUOTE [22].
    String,
    /// `'..'`: STRING_LITERAL_SINGLE_QUOTE [23].
    SingleString,
    /// `'''..'''`: STRING_LITERAL_LONG_SINGLE_QUOTE [24].
    LongSingleString,
    /// `"""..."""`: STRING_LITERAL_LONG_QUOTE [25].
    LongString,
    /// `.`
    Dot,
    /// `,`
    Comma,
    /// `;`
    Semicolon,
    /// `[`
    OpenSquare,
    /// `]`
    CloseSquare,
    /// `(`
    OpenRound,
    /// `)`
    CloseRound,
    /// `^^`, before a literal's datatype.
    DoubleCaret,
    /// `a`, which stands for rdf:type.
    A,
    /// `true`
    True,
    /// `false`
    False,
    /// `PREFIX` in any case.
    Prefix,
    /// `BASE` in any case.
    Base,
}

/// A token and its bytes: the first is at `at`, and `upto` is the place after the last.
#[derive(Clone, Copy, Debug, PartialEq, Eq)]
pub struct Token {
    pub kind: TokenKind,
    pub at: usize,
    pub upto: usize,
}
