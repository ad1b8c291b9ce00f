//! Texts that are not those of modules, refused at their places, which were counted by hand.
use crate::texts::{OTHER_WIDTH, SAMPLE, TWICE, WIDE_LITERAL};
use std::alloc::{AllocError, Global};
use std::test::Fail;
use sv_reader::{SvErr, read_modules};

// Where a text of at most 2,000 bytes is refused.
fn refused_at(alloc: Global, text: &[u8]) -> Option<u32> {
    if text.len() > 2_000 {
        return None;
    }
    match read_modules(alloc, text) {
        Err(SvErr::NotEmitted { at }) => Some(at),
        Err(SvErr::NoMemory) => None,
        Ok(_) => None,
    }
}

// The first bytes of the sample.
fn front(count: usize) -> &'static [u8] {
    let text = SAMPLE.as_bytes();
    &text[..count.min(text.len())]
}

// The sample up to a place, a byte, and the sample from a place on.
fn joined(alloc: Global, before: usize, byte: u8, behind: usize) -> Result<Vec<u8>, AllocError> {
    let rest = SAMPLE.as_bytes();
    let mut text = Vec::new(alloc);
    text.extend_from_slice(front(before))?;
    text.push(byte)?;
    text.extend_from_slice(&rest[behind.min(rest.len())..])?;
    Ok(text)
}

#[test]
fn other_texts_are_refused_at_their_places(rt: HostRuntime) -> Result<(), Fail> {
    let rows = [
        ("cut in the second line", front(20), 18),
        ("no last line feed", front(861), 852),
        ("no last line", front(852), 852),
        ("two lines in one", b"module m; endmodule\n".as_slice(), 0),
        ("two modules of one name", TWICE.as_bytes(), 73),
        (
            "a literal of 8 bits with the value 2^8",
            WIDE_LITERAL.as_bytes(),
            141,
        ),
        ("an operand of another width", OTHER_WIDTH.as_bytes(), 103),
    ];
    for (what, text, wanted) in &rows {
        assert_eq!(rt; refused_at(rt.alloc(), text), Some(*wanted), "{what}");
    }
    Ok(())
}

#[test]
fn the_sample_with_another_byte_is_refused(rt: HostRuntime) -> Result<(), Fail> {
    let rows = [
        ("a net that stands nowhere", 277, b'9', 278, 256),
        ("a carriage return", 17, 13, 17, 0),
    ];
    for (what, before, byte, behind, wanted) in &rows {
        let text = joined(rt.alloc(), *before, *byte, *behind)?;
        assert_eq!(rt;
            refused_at(rt.alloc(), text.as_slice()),
            Some(*wanted),
            "{what}"
        );
    }
    Ok(())
}
