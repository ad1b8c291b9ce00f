//! Widths of counters.
ghost use Rattle.std.specs.Prelude.{◌≡◌, ◌≤◌, ◌<◌, ◌^◌};
ghost use Rattle.machine_parts.specs.Digits.{digits};

/// How many binary digits a number has; 0 has one.
pub fn digit_count(number: u32) -> u8
    ensures digits { result ≡ digits number }
    ensures some { 1 ≤ result }
    ensures few { result ≤ 32 }
    ensures enough { number < 2 ^ result }
{
    let mut digits = 1u8;
    let mut bound = 2u64;
    while bound <= u64::from(number) {
        bound *= 2;
        digits += 1;
    }
    digits
}
