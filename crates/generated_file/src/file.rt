//! The bytes of the generated file, line by line.
ghost use Rattle.std.specs.Prelude.{◌≡◌, ◌≤◌, ◌++◌, ◌^◌, IfOk, length};
ghost use Rattle.anvil_io.specs.Causes.{joined};
ghost use Rattle.generated_file.specs.Generated.{generated, process_line};

use itoa::Buffer;
use std::alloc::{AllocError, Global};

const CHANNEL_LINE: &[u8] = b"chan ch { left req : (logic[8]@res), right res : (logic[8]@#1) }\n";

/// The file of `count` processes.
///
/// Refuses only where memory is refused.
pub fn generate(alloc: Global, count: u32) -> Result<Vec<u8>, AllocError>
    requires some { 1 ≤ count }
    requires few { count ≤ 64 }
    ensures text { IfOk result (λ bytes. bytes.items ≡ generated count) }
    ensures small { IfOk result (λ bytes. length bytes.items ≤ 2 ^ 20) }
{
    let mut text = Vec::new(alloc);
    text.extend_from_slice(CHANNEL_LINE)?;
    for index in 0..count {
        push_process(&mut text, index)?;
    }
    Ok(text)
}

/// The line of a process.
fn push_process(text: &mut Vec<u8>, index: u32) -> Result<(), AllocError>
    ensures { IfOk result (λ _. text.new.items ≡ text.old.items ++ process_line index) }
{
    let mut name = Buffer::new();
    let mut reset = Buffer::new();
    let mut pause = Buffer::new();
    let line: [&[u8]; 7] = [
        b"proc g",
        name.format(index).as_bytes(),
        b"(p : left ch) { reg r : logic[8] = 8'd",
        reset.format(index).as_bytes(),
        b"; loop { let x = recv p.req >> set r := *r + x >> send p.res(*r) >> cycle ",
        pause.format(1 + index % 3).as_bytes(),
        b" } }\n",
    ];
    push_all(text, &line)
}

/// Pieces, one after another.
fn push_all(text: &mut Vec<u8>, pieces: &[&[u8]]) -> Result<(), AllocError>
    ensures { IfOk result (λ _. text.new.items ≡ text.old.items ++ joined pieces.now) }
{
    for piece in pieces {
        text.extend_from_slice(piece)?;
    }
    Ok(())
}
