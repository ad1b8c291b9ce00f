//! What a watch answers to a cycle.
ghost use Rattle.std.specs.Prelude.{◌≡◌};

/// Whether the promises of all received ports are kept in a cycle, or the first port of which the promise is broken.
#[derive(Clone, Copy, Debug, PartialEq, Eq)]
pub enum Seen {
    Kept,
    Broken { port: u32 },
}

impl Seen {
    ghost use Rattle.stim_text.specs.Answered.{answered};

    /// The answer where this is the first port of which the promise is broken, if there is one.
    pub fn of(broken: Option<u32>) -> Seen
        ensures { result ≡ answered broken }
    {
        match broken {
            None => Seen::Kept,
            Some(port) => Seen::Broken { port },
        }
    }
}
