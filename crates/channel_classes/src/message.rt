//! The messages of a class, and the checks of them.
ghost use Rattle.std.specs.Prelude.{◌≡◌, ◌⊎◌, ◌≤◌, bytes_eq, length, [], None, Some, position, MatchResult};
ghost use Rattle.std.specs.List.{list_any};
ghost use Rattle.anvil_tree.specs.Few.{most_parts};
ghost use Rattle.first_check.specs.Check.{first_refusal};
ghost use Rattle.channel_classes.specs.Classes.{life_of, is_named, message_of, messages_of};
ghost use Rattle.channel_classes.specs.ClassChecks.{is_count, is_width, life_checks, message_checks, messages_checks};
ghost use Rattle.channel_classes.specs.declared.error.ClassErr.TheVariants.{NoMemory};

use crate::error::ClassErr;
use anvil_lexer::{Name, is_good_name};
use anvil_tree::{LifeText, Message, Side};
use std::alloc::Global;

/// The widest message, in bits.
const WIDEST: u32 = 64;

/// The longest life that has a number, in cycles.
const LONGEST_LIFE: u32 = 65535;

/// How long the data of an exchange stands.
#[derive(Clone, Copy, Debug, PartialEq, Eq)]
pub enum ClassLife {
    /// So many cycles, the one of the exchange among them.
    Cycles(u16),
    /// Up to the next exchange of another message, which has this number in the class.
    Until(u32),
}

/// A message of a class: the side to which it travels, its width in bits, and the life of its exchanges.
#[derive(Drop)]
pub struct ClassMessage {
    pub name: Name,
    pub toward: Side,
    pub width: u8,
    pub life: ClassLife,
}

fn same_name(one: &Name, other: &Name) -> bool
    ensures { result ≡ bytes_eq one.now other.now }
{
    one.bytes() == other.bytes()
}

// Whether one of the messages has the name.
fn is_among(messages: &[Message], name: &Name) -> bool
    ensures { result ≡ list_any (is_named name.now) messages.now }
{
    messages
        .iter()
        .any(|message| same_name(name, &message.name))
}

// The number of the first of the messages that has the name.
fn find_message(messages: &[Message], name: &Name) -> Option<usize>
    ensures { result ≡ position (is_named name.now) messages.now }
{
    messages
        .iter()
        .position(|message| same_name(name, &message.name))
}

fn is_width(width: u32) -> bool
    ensures { result ≡ is_width width }
{
    width >= 1 && width <= WIDEST
}

fn is_count(count: u32) -> bool
    ensures { result ≡ is_count count }
{
    count >= 1 && count <= LONGEST_LIFE
}

#[tactic(auto, using(crate::proofs::Found::found, crate::proofs::Found::lost))]
// The life of a message of a class with these messages.
fn read_life(messages: &[Message], message: &Message) -> Result<ClassLife, ClassErr>
    requires { length messages.now ≤ most_parts }
    ensures { MatchResult result
        (λ life. (first_refusal (life_checks messages.now message.now.name message.now.life_at message.now.life) ≡ None)
        × (life ≡ life_of messages.now message.now.life))
        (λ fault. first_refusal (life_checks messages.now message.now.name message.now.life_at message.now.life) ≡ Some fault) }
{
    let at = message.life_at;
    match &message.life {
        LifeText::Cycles(count) => {
            if is_count(*count) {
                Ok(ClassLife::Cycles(*count as u16))
            } else {
                Err(ClassErr::BadCount { at })
            }
        }
        LifeText::Until(name) => {
            if same_name(name, &message.name) {
                return Err(ClassErr::OwnLife { at });
            }
            match find_message(messages, name) {
                Some(number) => Ok(ClassLife::Until(number as u32)),
                None => Err(ClassErr::NoSuchLife { at }),
            }
        }
    }
}

// The message of a class with these messages, of which some stand before it.
fn read_message(
    messages: &[Message],
    before: &[Message],
    message: &Message,
) -> Result<ClassMessage, ClassErr>
    requires { length messages.now ≤ most_parts }
    ensures { MatchResult result
        (λ read. (first_refusal (message_checks messages.now before.now message.now) ≡ None)
        × (read ≡ message_of messages.now message.now))
        (λ fault. first_refusal (message_checks messages.now before.now message.now) ≡ Some fault) }
{
    if !is_good_name(message.name.bytes()) {
        return Err(ClassErr::BadName { at: message.at });
    }
    if is_among(before, &message.name) {
        return Err(ClassErr::Twice { at: message.at });
    }
    if !is_width(message.width) {
        return Err(ClassErr::BadWidth {
            at: message.width_at,
        });
    }
    match read_life(messages, message) {
        Ok(life) => Ok(ClassMessage {
            name: message.name.copy(),
            toward: message.toward,
            width: message.width as u8,
            life,
        }),
        Err(fault) => Err(fault),
    }
}

/// The messages of a class, in order, or the first check of them that fails.
pub fn read_messages(alloc: Global, messages: &[Message]) -> Result<Vec<ClassMessage>, ClassErr>
    requires { length messages.now ≤ most_parts }
    ensures { MatchResult result
        (λ read. (first_refusal (messages_checks messages.now [] messages.now) ≡ None) × (read.items ≡ messages_of messages.now))
        (λ fault. (fault ≡ NoMemory) ⊎ (first_refusal (messages_checks messages.now [] messages.now) ≡ Some fault)) }
{
    let mut read = Vec::new(alloc);
    for index in 0..messages.len() {
        match read_message(messages, &messages[..index], &messages[index]) {
            Ok(message) => match read.push(message) {
                Ok(()) => {}
                Err(_) => return Err(ClassErr::NoMemory),
            },
            Err(fault) => return Err(fault),
        }
    }
    Ok(read)
}
