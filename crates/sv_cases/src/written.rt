//! Texts read, and the modules written again: the bytes are those of the text.
use crate::texts::{COUNTER, HALVES, OPERATORS, SAMPLE, TWO};
use anvil_io::{MemSink, SinkFault};
use std::alloc::Global;
use std::test::Fail;
use sv_reader::{SvErr, SvModule, read_modules};
use sv_writer::write_module;

// The modules of a text of at most 2,000 bytes.
fn read(alloc: Global, text: &str) -> Result<Vec<SvModule>, SvErr> {
    if text.len() > 2_000 {
        return Err(SvErr::NoMemory);
    }
    read_modules(alloc, text.as_bytes())
}

#[test]
fn modules_are_read_and_written_again(rt: HostRuntime) -> Result<(), Fail> {
    let rows = [
        ("no bytes", "", 0),
        ("a counter", COUNTER, 1),
        ("a counter with a wait", SAMPLE, 1),
        ("two ports", HALVES, 1),
        ("each operator", OPERATORS, 1),
        ("two modules", TWO, 2),
    ];
    for (what, text, count) in &rows {
        let modules = read(rt.alloc(), text)?;
        assert_eq!(rt; modules.len(), *count, "{what}");
        let mut sink = MemSink::new(rt.alloc(), 2_000, Vec::new(rt.alloc()))?;
        for module in &modules {
            assert_eq!(rt; write_module(module, &mut sink), Ok(()), "{what}");
        }
        assert_eq!(rt; sink.bytes(), text.as_bytes(), "{what}");
    }
    Ok(())
}

#[test]
fn a_module_is_put_up_to_the_fault(rt: HostRuntime) -> Result<(), Fail> {
    for text in &[COUNTER, HALVES] {
        let length = text.len().min(2_000) as u32;
        for module in &read(rt.alloc(), text)? {
            for room in 0..length {
                let mut sink = MemSink::new(rt.alloc(), room, Vec::new(rt.alloc()))?;
                assert_eq!(rt; write_module(module, &mut sink), Err(SinkFault), "{room}");
                assert_eq!(rt; sink.bytes(), &text.as_bytes()[..room as usize], "{room}");
            }
        }
    }
    Ok(())
}
