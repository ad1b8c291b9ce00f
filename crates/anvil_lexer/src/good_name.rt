//! Good names: those that may stand in an emitted module.
ghost use Rattle.std.specs.Prelude.{◌≡◌};
ghost use Rattle.std.specs.List.{list_all};
ghost use Rattle.anvil_lexer.specs.GoodName.{begins_with_letter, begins_with_underscore, ends_with_underscore, has_double_underscore, is_good_name, is_name_byte};

/// Whether a name has ASCII letters, digits and `_` alone, begins with a letter, has no `__`, and does not end with `_`.
pub fn is_good_name(name: &[u8]) -> bool
    ensures { result ≡ is_good_name name.now }
{
    has_name_bytes(name)
        && begins_with_letter(name)
        && !has_double_underscore(name)
        && !ends_with_underscore(name)
}

/// Whether a byte is an ASCII letter or digit, or `_`.
pub fn may_stand_in_name(byte: u8) -> bool
    ensures { result ≡ is_name_byte byte }
{
    byte.is_ascii_alphanumeric() || byte == b'_'
}

fn has_name_bytes(name: &[u8]) -> bool
    ensures { result ≡ list_all is_name_byte name.now }
{
    name.iter().all(|byte| may_stand_in_name(*byte))
}

fn begins_with_letter(name: &[u8]) -> bool
    ensures { result ≡ begins_with_letter name.now }
{
    match name {
        [] => false,
        [byte, ..] => byte.is_ascii_alphabetic(),
    }
}

fn begins_with_underscore(name: &[u8]) -> bool
    ensures { result ≡ begins_with_underscore name.now }
{
    match name {
        [] => false,
        [byte, ..] => *byte == b'_',
    }
}

fn has_double_underscore(name: &[u8]) -> bool
    ensures { result ≡ has_double_underscore name.now }
{
    let mut rest = name;
    while let [byte, after @ ..] = rest {
        if *byte == b'_' && begins_with_underscore(after) {
            return true;
        }
        rest = after;
    }
    false
}

fn ends_with_underscore(name: &[u8]) -> bool
    ensures { result ≡ ends_with_underscore name.now }
{
    let mut rest = name;
    while let [byte, after @ ..] = rest {
        if after.is_empty() {
            return *byte == b'_';
        }
        rest = after;
    }
    false
}
