use crate::{Span, Word};

/// The special symbols (ISO 7185, 6.1.2).
#[derive(Clone, Copy, Debug, PartialEq, Eq)]
pub enum Symbol {
    /// `+`
    Plus,
    /// `-`
    Minus,
    /// `*`
    Star,
    /// `=`
    Equal,
    /// `<>`
    NotEqual,
    /// `<`
    Less,
    /// `<=`
    AtMost,
    /// `>`
    Greater,
    /// `>=`
    AtLeast,
    /// `(`
    OpenParenthesis,
    /// `)`
    CloseParenthesis,
    /// `[`
    OpenBracket,
    /// `]`
    CloseBracket,
    /// `.`
    Dot,
    /// `..`
    Dots,
    /// `,`
    Comma,
    /// `;`
    Semicolon,
    /// `:`
    Colon,
    /// `:=`
    Becomes,
}

/// A token: an identifier or a reserved word, an unsigned number, a character string of length one,
/// or a special symbol (ISO 7185, 6.1).
#[derive(Debug)]
pub enum Token {
    Word(Word),
    Number(i64),
    Char(u8),
    Symbol(Symbol),
}

impl Drop for Token {
    fn drop(self) {
        match self {
            Token::Word(_) => {}
            Token::Number(_) => {}
            Token::Char(_) => {}
            Token::Symbol(_) => {}
        }
    }
}

/// A token and its bytes' place in the input.
#[derive(Debug)]
pub struct Placed {
    pub token: Token,
    pub span: Span,
}

impl Drop for Placed {
    fn drop(self) {
        let Placed { token: _, span: _ } = self;
    }
}
