//! The law of the re-reading run, the contract of a function that does nothing.
ghost use Rattle.number_widths.specs.NumbersFit.{RereadNumbersFit};

/// Of a sized process, and on inputs whose data fit, the registers of a re-reading run, the numbers that its acts read again and
/// the data that it sends are below 2 to their widths.
pub fn reread_numbers_fit()
    ensures { RereadNumbersFit }
{}
