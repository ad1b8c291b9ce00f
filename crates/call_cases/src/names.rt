//! Names at both ends of their length, made, copied and printed.
use crate::answers::is_text;
use anvil_lexer::{LONGEST_NAME, Name};
use std::alloc::Global;

/// Texts and how Rust prints each in quotes: one byte, a name of many, one whose first character has two bytes, and 64 bytes.
const ROWS: [(&str, &str); 4] = [
    ("x", "\"x\""),
    ("input_2", "\"input_2\""),
    ("\u{3c0}2", "\"\u{3c0}2\""),
    (
        "a_name_of_sixty_four_bytes_______40________50________60_____last",
        "\"a_name_of_sixty_four_bytes_______40________50________60_____last\"",
    ),
];

// Whether the name of a text, and a copy of it, have its bytes and are printed so.
fn is_printed(alloc: Global, text: &str, printed: &str) -> bool {
    let bytes = text.as_bytes();
    if bytes.is_empty() || bytes.len() > LONGEST_NAME {
        return false;
    }
    let name = Name::of(alloc, bytes);
    let copy = name.copy();
    let same = copy.bytes() == bytes && name == copy;
    let shown = is_text(format!(in alloc; "{name:?}"), printed.as_bytes());
    drop(copy);
    drop(name);
    same && shown
}

#[test]
fn names_are_copied_and_printed(rt: HostRuntime) {
    for (text, printed) in ROWS {
        assert!(rt; is_printed(rt.alloc(), text, printed), "{text}");
    }
}
