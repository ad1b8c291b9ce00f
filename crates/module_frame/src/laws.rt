//! Laws of the bits of a frame, each the contract of a function that does nothing.
ghost use Rattle.module_frame.specs.BitLaws.{DigitsAreCounted, PlanBitsAreThreadBits, PlanBitsAreBounded};

/// A number is below 2 to its digits, and no fewer would do.
pub fn digits_are_counted()
    ensures { DigitsAreCounted }
{}

/// What a plan tells of its bits is what the machine of its thread keeps.
pub fn plan_bits_are_thread_bits()
    ensures { PlanBitsAreThreadBits }
{}

/// The bits of the registers of a process and of its states are within the sum over the constructs of its text.
pub fn plan_bits_are_bounded()
    ensures { PlanBitsAreBounded }
{}
