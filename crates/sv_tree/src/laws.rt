//! Laws of modules, each the contract of a function that does nothing.
ghost use Rattle.sv_tree.specs.Fitting.{RegistersFit, SettledNumbersFit};

/// In a well-formed module every operand that stands shows a number below 2 to its width, where what comes in does.
pub fn settled_numbers_fit()
    ensures { SettledNumbersFit }
{}

/// So does every register, from the reset on.
pub fn registers_fit()
    ensures { RegistersFit }
{}
