//! The tokens of a source text: what each one is, where it stands and how many bytes it takes.
use crate::name::Name;

/// A word that the language keeps for itself.
#[derive(Clone, Copy, Debug, PartialEq, Eq)]
pub enum Keyword {
    Chan,
    Proc,
    Left,
    Right,
    Logic,
    Reg,
    Loop,
    Let,
    Set,
    Send,
    Recv,
    Cycle,
    If,
    Else,
    Shl,
    Shr,
    Cat,
}

/// A bracket, a separator or an operator.
#[derive(Clone, Copy, Debug, PartialEq, Eq)]
pub enum Mark {
    OpenBrace,
    CloseBrace,
    OpenParen,
    CloseParen,
    OpenBracket,
    CloseBracket,
    Comma,
    Semicolon,
    Colon,
    /// `:=`
    Assign,
    /// `=`
    Equals,
    Dot,
    At,
    Hash,
    Question,
    /// `>>`
    Chain,
    Tilde,
    Plus,
    Minus,
    Star,
    Amp,
    Bar,
    Caret,
    EqEq,
    NotEq,
    Less,
    LessEq,
    Greater,
    GreaterEq,
}

/// What a token is.
#[derive(Debug, Drop, PartialEq, Eq)]
pub enum TokenKind {
    Key(Keyword),
    /// An identifier that is no keyword.
    Word(Name),
    /// A decimal number.
    Number(u32),
    /// A number with its width in bits. The value need not fit the width.
    Literal { width: u32, value: u128 },
    Mark(Mark),
    /// The end of the source.
    End,
}

/// A token, with the byte offset of its first byte and its length in bytes.
#[derive(Debug, Drop, PartialEq, Eq)]
pub struct Token {
    pub kind: TokenKind,
    pub at: u32,
    pub len: u32,
}
