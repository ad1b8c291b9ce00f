//! The law, as the contract of a function that does nothing.
ghost use Rattle.drawn_machine.specs.Drawn.{DrawnMeansReread};

/// A module that is drawn for a process means its re-reading run.
pub fn drawn_means_reread()
    ensures { DrawnMeansReread }
{}
