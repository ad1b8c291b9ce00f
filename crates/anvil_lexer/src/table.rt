//! The keywords and the marks, each with its spelling, and how a spelling is looked up.
ghost use Rattle.std.specs.Prelude.{◌≡◌, ◌≤◌, length, map};
ghost use Rattle.anvil_lexer.specs.Name.{longest_name};
ghost use Rattle.anvil_lexer.specs.Spelling.{kind_of_word};
ghost use Rattle.anvil_lexer.specs.Scan.{spelled_in, mark_spelled};

use crate::name::Name;
use crate::token::{Keyword, Mark, TokenKind};
use std::alloc::Global;

/// Each keyword with its spelling.
const KEYWORDS: [(&str, Keyword); 17] = [
    ("chan", Keyword::Chan),
    ("proc", Keyword::Proc),
    ("left", Keyword::Left),
    ("right", Keyword::Right),
    ("logic", Keyword::Logic),
    ("reg", Keyword::Reg),
    ("loop", Keyword::Loop),
    ("let", Keyword::Let),
    ("set", Keyword::Set),
    ("send", Keyword::Send),
    ("recv", Keyword::Recv),
    ("cycle", Keyword::Cycle),
    ("if", Keyword::If),
    ("else", Keyword::Else),
    ("shl", Keyword::Shl),
    ("shr", Keyword::Shr),
    ("cat", Keyword::Cat),
];

/// Each mark with its spelling.
const MARKS: [(&str, Mark); 29] = [
    ("{", Mark::OpenBrace),
    ("}", Mark::CloseBrace),
    ("(", Mark::OpenParen),
    (")", Mark::CloseParen),
    ("[", Mark::OpenBracket),
    ("]", Mark::CloseBracket),
    (",", Mark::Comma),
    (";", Mark::Semicolon),
    (":", Mark::Colon),
    (":=", Mark::Assign),
    ("=", Mark::Equals),
    (".", Mark::Dot),
    ("@", Mark::At),
    ("#", Mark::Hash),
    ("?", Mark::Question),
    (">>", Mark::Chain),
    ("~", Mark::Tilde),
    ("+", Mark::Plus),
    ("-", Mark::Minus),
    ("*", Mark::Star),
    ("&", Mark::Amp),
    ("|", Mark::Bar),
    ("^", Mark::Caret),
    ("==", Mark::EqEq),
    ("!=", Mark::NotEq),
    ("<", Mark::Less),
    ("<=", Mark::LessEq),
    (">", Mark::Greater),
    (">=", Mark::GreaterEq),
];

/// What the table has for this spelling.
fn find<T: Copy>(table: &[(&str, T)], text: &str) -> Option<T>
    ensures { result ≡ spelled_in (map (λ row. (row.0.now, row.1)) table.now) text.now }
{
    for row in table {
        if row.0 == text {
            return Some(row.1);
        }
    }
    None
}

/// The keyword that is spelled so, and else a word.
pub(crate) fn kind_of_word(alloc: Global, text: &str) -> TokenKind
    requires some { 1 ≤ length text.now }
    requires few { length text.now ≤ longest_name }
    ensures { result ≡ kind_of_word text.now }
{
    match find(&KEYWORDS, text) {
        Some(keyword) => TokenKind::Key(keyword),
        None => TokenKind::Word(Name::of(alloc, text.as_bytes())),
    }
}

/// The mark that is spelled so.
pub(crate) fn mark_spelled(text: &str) -> Option<Mark>
    ensures { result ≡ mark_spelled text.now }
{
    find(&MARKS, text)
}
