//! Laws of a simulation, each the contract of a function that does nothing.
ghost use Rattle.sim_laws.specs.SimLaws.{NewStands, StepStands, StepShows};

/// A simulation in which nothing has begun, whose registers show their resets, stands after no rows.
pub fn new_stands()
    ensures { NewStands }
{}

/// A simulation that stands after some rows stands, after one cycle more, after those and the row of the cycle.
pub fn step_stands()
    ensures { StepStands }
{}

/// In that cycle it shows what the run of its process shows, on every input list that begins with those rows.
pub fn step_shows()
    ensures { StepShows }
{}
