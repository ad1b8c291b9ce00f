//! The kinds of characters that stand together in a token.
ghost use Rattle.std.specs.Prelude.{◌≡◌};
ghost use Rattle.anvil_lexer.specs.Characters.{begins_identifier};

use unicode_ident::{is_xid_continue, is_xid_start};

/// The base in which digits are read.
#[derive(Clone, Copy, Debug, PartialEq, Eq)]
pub(crate) enum Base {
    Decimal,
    Hexadecimal,
    Binary,
}

/// A kind of characters.
#[derive(Clone, Copy)]
pub(crate) enum Class {
    /// What goes on with an identifier.
    Identifier,
    /// A digit of a base.
    Digit(Base),
    /// This character alone.
    Only(char),
}

impl Class {
    ghost use Rattle.anvil_lexer.specs.Characters.{belongs};

    /// Whether the character is of this kind.
    pub(crate) fn has(self, character: char) -> bool
        ensures { result ≡ belongs self character }
    {
        match self {
            Class::Identifier => is_xid_continue(character),
            Class::Digit(Base::Decimal) => character.is_ascii_digit(),
            Class::Digit(Base::Hexadecimal) => character.is_ascii_hexdigit(),
            Class::Digit(Base::Binary) => character == '0' || character == '1',
            Class::Only(wanted) => character == wanted,
        }
    }
}

/// Whether an identifier may begin with the character.
pub(crate) fn begins_identifier(character: char) -> bool
    ensures { result ≡ begins_identifier character }
{
    character == '_' || is_xid_start(character)
}
