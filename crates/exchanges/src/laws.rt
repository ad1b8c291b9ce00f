//! Laws of the latest exchange of a port, each the contract of a function that does nothing.
ghost use Rattle.exchanges.specs.Next.{LatestGoesOn};
ghost use Rattle.exchanges.specs.Promise.{PromiseIsTold, ShownIsTold};
ghost use Rattle.exchanges.specs.Watch.{WatchTells};

/// What is kept of the latest exchange of a port before a cycle, taken one cycle on, is of the latest exchange before the next.
pub fn latest_goes_on()
    ensures { LatestGoesOn }
{}

/// While the promise of a port is kept, its latest exchange tells whether the data of the next cycle breaks it.
pub fn promise_is_told()
    ensures { PromiseIsTold }
{}

/// The latest exchange of a port tells whether the port is offered or in the life of an exchange.
pub fn shown_is_told()
    ensures { ShownIsTold }
{}

/// The latest exchanges of all ports tell whether a cycle keeps all promises, and else the first broken one.
pub fn watch_tells()
    ensures { WatchTells }
{}
