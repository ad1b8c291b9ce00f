//! The sources of the tables are read, and the longest ones there are.
use crate::answers::is_text;
use crate::sources::{BYTES, ROWS};
use anvil_lexer::{LexErr, Token, lex};
use std::alloc::{AllocError, Global};

/// The longest source that `lex` takes.
const LONGEST_SOURCE: usize = 1 << 20;

// Tokens as the tables have them.
fn listed(alloc: Global, tokens: &[Token]) -> Result<String, AllocError> {
    let mut text = String::new(alloc);
    for token in tokens {
        if !text.is_empty() {
            text.push_str(", ")?;
        }
        let (kind, at, len) = (&token.kind, token.at, token.len);
        text.push_str(format!(in alloc; "{kind:?} {at} {len}")?.as_str())?;
    }
    Ok(text)
}

// Whether a source is read as a table has it.
fn reads(alloc: Global, source: &[u8], wanted: &[u8]) -> bool {
    if source.len() > LONGEST_SOURCE {
        return false;
    }
    match lex(alloc, source) {
        Ok(tokens) => {
            let same = is_text(listed(alloc, &tokens), wanted);
            drop(tokens);
            same
        }
        Err(refusal) => is_text(format!(in alloc; "{refusal:?}"), wanted),
    }
}

// Whether a source is read as its line has it.
fn is_read(alloc: Global, line: &str) -> bool {
    let Some((_, row)) = line.split_once('\t') else {
        return false;
    };
    match row.split_once('\t') {
        Some((source, wanted)) => reads(alloc, source.as_bytes(), wanted.as_bytes()),
        None => false,
    }
}

#[test]
fn each_source_has_its_tokens_or_its_first_refusal(rt: HostRuntime) {
    for line in ROWS.lines() {
        assert!(rt; is_read(rt.alloc(), line), "{line}");
    }
}

#[test]
fn lines_and_comments_are_passed_over(rt: HostRuntime) {
    for (what, source, wanted) in BYTES {
        assert!(rt; reads(rt.alloc(), source, wanted.as_bytes()), "{what}");
    }
}

// How many tokens a source has, and where the last one stands; for a name that is too long no tokens, and its place.
fn told(alloc: Global, source: &[u8]) -> Option<(usize, u32)> {
    if source.len() > LONGEST_SOURCE {
        return None;
    }
    match lex(alloc, source) {
        Ok(tokens) => {
            let last = match tokens.last() {
                Some(token) => Some((tokens.len(), token.at)),
                None => None,
            };
            drop(tokens);
            last
        }
        Err(LexErr::LongName { at }) => Some((0, at)),
        Err(_) => None,
    }
}

// What is told of the longest source there is, of one byte.
fn longest_of(alloc: Global, byte: u8) -> Option<(usize, u32)> {
    match vec![in alloc; byte; LONGEST_SOURCE] {
        Ok(source) => {
            let answer = told(alloc, source.as_slice());
            drop(source);
            answer
        }
        Err(_) => None,
    }
}

#[test]
fn the_longest_sources_are_read(rt: HostRuntime) {
    let rows = [
        (b' ', 1, 1048576),
        (b'/', 1, 1048576),
        (b'a', 0, 0),
        (b';', 1048577, 1048576),
    ];
    for (byte, count, at) in rows {
        assert!(rt; longest_of(rt.alloc(), byte) == Some((count, at)), "{byte}");
    }
}
