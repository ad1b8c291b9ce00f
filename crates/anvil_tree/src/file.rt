//! Files: their channel classes and processes.
use crate::term::Term;
use anvil_lexer::Name;

/// A file: its items in the order of the text.
#[derive(Drop)]
pub struct File {
    pub items: Vec<Item>,
}

/// A class or a process.
#[derive(Drop)]
pub enum Item {
    Chan(Chan),
    Proc(Proc),
}

/// A side of a channel: the way that a message travels, or the end that a process holds.
#[derive(Clone, Copy, Debug, PartialEq, Eq)]
pub enum Side {
    Left,
    Right,
}

/// A channel class. `at` is the place of its name.
#[derive(Drop)]
pub struct Chan {
    pub name: Name,
    pub at: u32,
    pub messages: Vec<Message>,
}

/// A message of a class: where it travels, its width in bits, and how long its data stands. `at` is the place of its name.
#[derive(Drop)]
pub struct Message {
    pub toward: Side,
    pub name: Name,
    pub at: u32,
    pub width: u32,
    pub width_at: u32,
    pub life: LifeText,
    /// The place of the number or of the word.
    pub life_at: u32,
}

/// The life of a message, as it is written.
#[derive(Drop)]
pub enum LifeText {
    /// `#k`: this many cycles.
    Cycles(u32),
    /// `m`: until an exchange of this message.
    Until(Name),
}

/// A process. `at` is the place of its name.
#[derive(Drop)]
pub struct Proc {
    pub name: Name,
    pub at: u32,
    pub endpoints: Vec<Endpoint>,
    pub registers: Vec<Register>,
    /// One term for each `loop`.
    pub threads: Vec<Term>,
}

/// An endpoint of a process: the side that it holds of a channel of the class. `at` is the place of its name.
#[derive(Drop)]
pub struct Endpoint {
    pub name: Name,
    pub at: u32,
    pub side: Side,
    pub class: Name,
    pub class_at: u32,
}

/// A register of a process, with its width in bits and the literal that it is reset to. `at` is the place of its name.
#[derive(Drop)]
pub struct Register {
    pub name: Name,
    pub at: u32,
    pub width: u32,
    pub width_at: u32,
    pub reset: Option<LiteralText>,
}

/// A literal, as it is written: the value need not fit the width.
#[derive(Clone, Copy, Debug, PartialEq, Eq)]
pub struct LiteralText {
    pub width: u32,
    pub value: u128,
    pub at: u32,
}

impl Item {
    ghost use Rattle.std.specs.Prelude.{◌≡◌};
    ghost use Rattle.anvil_tree.specs.View.{item_of};
    ghost use Rattle.anvil_tree.specs.Places.{place_of_item};

    /// The place of the name of the class or process.
    pub fn at(&self) -> u32
        ensures { result ≡ place_of_item (item_of self.now) }
    {
        match self {
            Item::Chan(class) => class.at,
            Item::Proc(process) => process.at,
        }
    }
}
