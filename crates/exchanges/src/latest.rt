//! The latest exchange of a port, from cycle to cycle.
ghost use Rattle.std.specs.Prelude.{◌≡◌, ◌<◌, ◌^◌, ℕ, map};
ghost use Rattle.core_term.specs.Process.{Cycles};
ghost use Rattle.core_term.specs.ProcessView.{end_of_life};
ghost use Rattle.exchanges.specs.Broken.{no_latest};
ghost use Rattle.exchanges.specs.Promise.{differs as data_differs};
ghost use Rattle.exchanges.specs.Next.{Bounded, end_holds as end_goes_on, ends_hold, next};

use anvil_bits::Bits;
use core_term::CoreLife;

/// The latest exchange of a port, after a cycle. No cycle is kept as a number, so cycles may go on for ever.
#[derive(Clone, Copy, Debug, PartialEq, Eq)]
pub struct Latest {
    /// Whether there was one, and the next cycle is in its life.
    pub lives: bool,
    /// How many cycles ago it was, as far as a `u32` counts.
    pub age: u32,
    /// Its data.
    pub number: Bits,
}

/// Whether the life of an exchange of so many cycles ago goes on after this cycle, by one of its ends.
fn end_holds(end: CoreLife, age: u32, exchanged: &[bool]) -> bool
    ensures holds { result ≡ end_goes_on exchanged.now age (end_of_life end) }
    ensures bounded { (count : ℕ) → end_of_life end ≡ Cycles count → count < 2 ^ 16 }
{
    match end {
        CoreLife::Cycles(count) => u64::from(age) + 1 < u64::from(count),
        CoreLife::Until(port) => match exchanged.get(port as usize) {
            None => true,
            Some(ends) => !*ends,
        },
    }
}

/// Whether the life of an exchange of so many cycles ago goes on after this cycle, by each of its ends. `exchanged` tells of
/// each port whether there was an exchange in the cycle.
fn all_ends_hold(ends: &[CoreLife], age: u32, exchanged: &[bool]) -> bool
    ensures holds { result ≡ ends_hold exchanged.now age (map end_of_life ends.now) }
    ensures bounded { Bounded (map end_of_life ends.now) }
{
    let mut holds = true;
    for end in ends {
        let goes_on = end_holds(*end, age, exchanged);
        holds &= goes_on;
    }
    holds
}

impl Latest {
    /// What is kept of a port of which there was no exchange.
    pub fn none() -> Latest
        ensures { result ≡ no_latest }
    {
        Latest {
            lives: false,
            age: 0,
            number: Bits::new(1, 0),
        }
    }

    /// What is kept one cycle on, by the ends of the life of the port. In the cycle there was an exchange of the port with this
    /// number (`now`), or there was none; `exchanged` tells that of each port.
    pub fn after(self, ends: &[CoreLife], now: bool, exchanged: &[bool], number: Bits) -> Latest
        ensures next { result ≡ next exchanged.now (map end_of_life ends.now) now number self }
        ensures bounded { Bounded (map end_of_life ends.now) }
    {
        if now {
            Latest {
                lives: all_ends_hold(ends, 0, exchanged),
                age: 0,
                number,
            }
        } else {
            let age = self.age.saturating_add(1);
            Latest {
                lives: all_ends_hold(ends, age, exchanged) && self.lives,
                age,
                number: self.number,
            }
        }
    }

    /// Whether the data of this cycle breaks the promise of the latest exchange.
    pub fn differs(self, number: Bits) -> bool
        ensures { result ≡ data_differs self number.value }
    {
        self.lives && self.number.value() != number.value()
    }
}
