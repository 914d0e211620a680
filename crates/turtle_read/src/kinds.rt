ghost use Rattle.std.specs.Prelude.{◌≡◌, None, Some};
ghost use Rattle.std.specs.Option.{option_map};
ghost use Rattle.turtle_document.specs.Machine as machine;
ghost use Rattle.turtle_document.specs.Machine.{as_quoting};
ghost use Rattle.turtle_value.specs.Quotings.{quoting_of};

use turtle_grammar::TokenKind;
use turtle_value::Quotes;

/// The quotes of a string, where a token is one.
pub fn quotes_of(kind: TokenKind) -> Option<Quotes>
    ensures { option_map quoting_of result ≡ as_quoting kind }
{
    match kind {
        TokenKind::String => Some(Quotes::Double),
        TokenKind::SingleString => Some(Quotes::Single),
        TokenKind::LongString => Some(Quotes::LongDouble),
        TokenKind::LongSingleString => Some(Quotes::LongSingle),
        _ => None,
    }
}

/// Whether an object can begin with a token.
pub fn begins_object(kind: TokenKind) -> bool
    ensures { result ≡ machine.begins_object kind }
{
    matches!(
        kind,
        TokenKind::Iri
            | TokenKind::PrefixedName
            | TokenKind::Namespace
            | TokenKind::BlankLabel
            | TokenKind::OpenSquare
            | TokenKind::OpenRound
            | TokenKind::String
            | TokenKind::SingleString
            | TokenKind::LongString
            | TokenKind::LongSingleString
            | TokenKind::Integer
            | TokenKind::Decimal
            | TokenKind::Double
            | TokenKind::True
            | TokenKind::False
    )
}
