use turtle_grammar::TokenKind;

/// A token with its text.
#[derive(Clone, Copy)]
pub struct Lexeme<'a> {
    pub kind: TokenKind,
    pub at: usize,
    pub text: &'a str,
}
