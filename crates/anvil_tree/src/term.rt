//! Terms, which the threads of a process run, and the acts that they are made of.
use crate::expr::Expr;
use anvil_lexer::Name;

/// A chain of acts, which groups to the right. The name is the variable that a `let` binds to the act's value.
#[cycle(term)]
#[derive(Drop)]
pub enum Term {
    One(Act),
    /// `a >> t`
    Then(Option<Name>, Act, Box<Term>),
    /// `a ; t`
    Both(Option<Name>, Act, Box<Term>),
}

/// An act. `at` is the place of its first token, and of an expression that of its root node.
#[cycle(term)]
#[derive(Drop)]
pub struct Act {
    pub at: u32,
    pub kind: ActKind,
}

/// What an act does. Each name and number has its own place.
#[cycle(term)]
#[derive(Drop)]
pub enum ActKind {
    Cycle {
        count: u32,
        count_at: u32,
    },
    Set {
        register: Name,
        register_at: u32,
        value: Expr,
    },
    Send {
        endpoint: Name,
        endpoint_at: u32,
        message: Name,
        message_at: u32,
        value: Expr,
    },
    Recv {
        endpoint: Name,
        endpoint_at: u32,
        message: Name,
        message_at: u32,
    },
    If {
        cond: Expr,
        yes: Box<Term>,
        no: Option<Box<Term>>,
    },
    /// `{ t }`
    Block(Box<Term>),
    /// An expression that stands as an act.
    Pure(Expr),
}

impl Term {
    ghost use Rattle.std.specs.Prelude.{◌≡◌};
    ghost use Rattle.anvil_tree.specs.View.{term_of};
    ghost use Rattle.anvil_tree.specs.Places.{place_of_term};

    /// The place of the first act.
    pub fn at(&self) -> u32
        ensures { result ≡ place_of_term (term_of self.now) }
    {
        match self {
            Term::One(act) | Term::Then(_, act, _) | Term::Both(_, act, _) => act.at,
        }
    }
}
