//! Reads an endpoint of a process token by token, from behind its name to the name of its class.
ghost use Rattle.std.specs.Prelude.{◌≡◌};
ghost use Rattle.anvil_grammar.specs.Step.{endpoint_step};
ghost use Rattle.parse_steps.specs.Seen.{IsReached, same};
ghost use Rattle.parse_processes.specs.SeenParts.{endpoint_state_of};

use anvil_grammar::ParseErr;
use anvil_lexer::{Mark, Token};
use anvil_tree::{Endpoint, Side};
use parse_steps::{Label, Reached, await_mark, goes_on, side, word};

/// What is wanted next in an endpoint, behind its name.
#[derive(Clone, Copy)]
pub enum EndpointWanted {
    Colon,
    Side,
    Class(Side),
}

/// An endpoint up to some token behind its name.
#[derive(Drop)]
pub struct EndpointDraft {
    pub label: Label,
    pub wanted: EndpointWanted,
}

impl EndpointDraft {
    /// Reads on in an endpoint.
    pub fn step(&mut self, token: &Token) -> Result<Reached<Endpoint>, ParseErr>
        ensures { IsReached (endpoint_state_of self.new) same token.now
            (endpoint_step (endpoint_state_of self.old) token.now) result }
    {
        match self.wanted {
            EndpointWanted::Colon => await_mark(
                token,
                Mark::Colon,
                &mut self.wanted,
                EndpointWanted::Side,
            ),
            EndpointWanted::Side => match side(token) {
                Some(side) => goes_on(&mut self.wanted, EndpointWanted::Class(side)),
                None => Err(ParseErr::Unexpected { at: token.at }),
            },
            EndpointWanted::Class(side) => match word(token) {
                Ok(class) => Ok(Reached::Finished(self.of_class(side, class))),
                Err(refusal) => Err(refusal),
            },
        }
    }

    // The endpoint whose parts have been read.
    fn of_class(&self, side: Side, class: Label) -> Endpoint
        ensures { result ≡ record {
          name = self.now.label.name;
          at = self.now.label.at;
          side = side;
          class = class.name;
          class_at = class.at;
        } }
    {
        let Label {
            name: class,
            at: class_at,
        } = class;
        Endpoint {
            name: self.label.name.copy(),
            at: self.label.at,
            side,
            class,
            class_at,
        }
    }
}
