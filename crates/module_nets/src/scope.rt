//! What an expression and the value of an act can name.
ghost use Rattle.std.specs.Prelude.{◌≡◌, ◌<◌, length};
ghost use Rattle.module_nets.specs.Signals.{no_signal, signal_at, variable_in};

use crate::signal::Signal;

/// A variable, by the site of the act that makes it, with its value. A unit value has the width 0.
#[derive(Clone, Copy)]
pub struct Variable {
    /// The site of the act that makes it.
    pub site: u32,
    /// The signal of its value.
    pub value: Signal,
}

/// The signals of the registers, of the data of the ports and of the sides of the `if`s, by their numbers; and the variables,
/// the innermost last.
#[derive(Clone, Copy)]
pub struct Scope<'a> {
    /// What each register shows.
    pub registers: &'a [Signal],
    /// The data of each port.
    pub ports: &'a [Signal],
    /// Which side each `if` is on, by its site.
    pub sides: &'a [Signal],
    /// The variables in scope.
    pub variables: &'a [Variable],
}

impl<'a> Scope<'a> {
    /// What a register shows.
    pub fn register(&self, register: u32) -> Signal
        requires { register < length self.now.registers.now }
        ensures { result ≡ signal_at self.now.registers.now register }
    {
        self.registers[register as usize]
    }

    /// The value of a variable.
    pub fn variable(&self, number: u32) -> Signal
        ensures { result ≡ variable_in no_signal self.now.variables.now number }
    {
        let mut found = Signal::none();
        for variable in self.variables {
            if variable.site == number {
                found = variable.value;
            }
        }
        found
    }
}
