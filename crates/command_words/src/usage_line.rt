//! The usage line.
ghost use Rattle.std.specs.Prelude.{◌≡◌};
ghost use Rattle.command_words.specs.Form.{usage_line};

/// The line that says which forms there are.
pub fn usage() -> &'static [u8]
    ensures { result.now ≡ usage_line }
{
    b"usage: anvil check FILE | compile FILE | run FILE PROC STIM | runsv FILE SV PROC STIM | gen NUMBER\n"
}
