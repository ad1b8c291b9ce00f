//! What is wanted next in a module, and what a line comes to.
use sv_pieces::WireLine;
use sv_tree::SvOperand;

/// What is wanted next in a module.
#[derive(Clone, Copy)]
pub enum Wanted<'a> {
    Clock,
    Reset,
    /// In the header, behind a comma, and behind a line without one.
    Port,
    Closing,
    /// In the port of this `data` line, behind that line, and behind the `valid` line.
    Valid(WireLine<'a>),
    Ack(WireLine<'a>),
    /// A register, a net, an output, or what follows these.
    Item,
    /// Behind the declaration of a net, by its width, and behind the `data` line of an output.
    Assign(u8),
    Second(SvOperand),
    /// In the clock's block: behind its first line, the reset of a register, a next value, its last line.
    Test,
    Resets(usize),
    Nexts,
    End,
    Last,
}

/// What a line comes to in a module: the next is wanted, or the module is whole.
#[derive(Clone, Copy)]
pub enum Reached<'a> {
    Onward(Wanted<'a>),
    Finished,
}
