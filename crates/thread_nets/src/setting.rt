//! What a thread is drawn from, what is drawn so far, and the values that need no recursion.
ghost use Rattle.std.specs.Prelude.{◌≡◌, ◌<◌, ◌++◌, ◌∷◌, [], IfOk, IsTrue, length};
ghost use Rattle.core_term.specs.Again.{number};
ghost use Rattle.core_term.specs.Sized.{parts_fit};
ghost use Rattle.core_term.specs.View.{expr_of};
ghost use Rattle.core_term.specs.Widths.{expr_width};
ghost use Rattle.module_nets.specs.Netlist.{Extends, Stands};
ghost use Rattle.module_nets.specs.Shown.{Moment, IsMomentOf, Shows};
ghost use Rattle.module_nets.specs.Signals.{no_signal, shown_in, signal_at, variable_in, PlacesStand, VariablesStand};
ghost use Rattle.thread_nets.specs.Walk.{kept_registers, kept_ports, sight_at, widths_here};

use core_term::CoreExpr;
use machine_parts::{ThreadStates, TurnPlan};
use module_nets::{Netlist, Scope, Signal, Variable, draw_expression};
use pulse_nets::Pulse;
use std::alloc::{AllocError, Global};

/// What a thread is drawn from.
#[derive(Clone, Copy)]
pub struct ThreadSetting<'a> {
    /// How the nodes of a turn are drawn.
    pub plan: &'a TurnPlan,
    /// The registers of the thread.
    pub states: &'a ThreadStates,
    /// What each register of the source shows.
    pub registers: &'a [Signal],
    /// The data of each port.
    pub ports: &'a [Signal],
    /// The wire of each port: its `valid` where the port is received, its `ack` where it is sent.
    pub wires: &'a [Signal],
}

/// What the walk over a body reads: the setting, whether a turn begins, and the pulses of the tail.
#[derive(Clone, Copy)]
pub struct Walk<'a> {
    /// What the thread is drawn from.
    pub setting: ThreadSetting<'a>,
    /// Whether a turn begins.
    pub begin: Signal,
    /// The pulses of the nodes of the tail.
    pub tails: &'a [Pulse],
}

/// What is drawn so far: the pulses of the first nodes, and for each act up to here its value, its decision and its side.
#[derive(Drop)]
pub struct Drawn {
    /// The pulse of each node.
    pub pulses: Vec<Pulse>,
    /// The value that each act uses.
    pub values: Vec<Signal>,
    /// How each `if` decides.
    pub decisions: Vec<Signal>,
    /// Which side each `if` shows.
    pub sides: Vec<Signal>,
}

impl Drawn {
    /// Nothing is drawn.
    pub fn new(alloc: Global) -> Drawn
        ensures pulses { result.pulses.items ≡ [] }
        ensures values { result.values.items ≡ [] }
        ensures decisions { result.decisions.items ≡ [] }
        ensures sides { result.sides.items ≡ [] }
    {
        Drawn {
            pulses: Vec::new(alloc),
            values: Vec::new(alloc),
            decisions: Vec::new(alloc),
            sides: Vec::new(alloc),
        }
    }

    /// Adds what is drawn of one more act.
    pub fn add(
        &mut self,
        value: &Signal,
        decision: &Signal,
        side: &Signal,
    ) -> Result<(), AllocError>
        ensures pulses { IfOk result (λ done. self.new.pulses.items ≡ self.old.pulses.items) }
        ensures values { IfOk result (λ done. self.new.values.items ≡ self.old.values.items ++ value.now ∷ []) }
        ensures decisions { IfOk result (λ done.
            self.new.decisions.items ≡ self.old.decisions.items ++ decision.now ∷ []) }
        ensures sides { IfOk result (λ done. self.new.sides.items ≡ self.old.sides.items ++ side.now ∷ []) }
    {
        push(&mut self.values, value)?;
        push(&mut self.decisions, decision)?;
        push(&mut self.sides, side)?;
        Ok(())
    }
}

/// Adds a signal at the end.
fn push(signals: &mut Vec<Signal>, signal: &Signal) -> Result<(), AllocError>
    ensures { IfOk result (λ done. signals.new.items ≡ signals.old.items ++ signal.now ∷ []) }
{
    signals.push(Signal {
        operand: signal.operand,
        width: signal.width,
    })?;
    Ok(())
}

/// The data of a port.
pub fn data_of(walk: &Walk<'_>, port: u32) -> Signal
    requires { 0 < (signal_at (kept_ports walk.now) port).width }
    ensures { result ≡ signal_at (kept_ports walk.now) port }
{
    match walk.setting.ports.get(port as usize) {
        Some(signal) => *signal,
        None => unreachable!(),
    }
}

/// The value of a variable.
pub fn value_of(walk: &Walk<'_>, variables: &[Variable], number: u32) -> Signal
    ensures { result ≡ variable_in no_signal variables.now number }
{
    let scope = Scope {
        registers: walk.setting.registers,
        ports: walk.setting.ports,
        sides: &[],
        variables,
    };
    scope.variable(number)
}

/// The variables with one more.
pub fn with_variable(
    alloc: Global,
    variables: &[Variable],
    site: u32,
    value: &Signal,
) -> Result<Vec<Variable>, AllocError>
    ensures { IfOk result (λ longer. longer.items ≡ variables.now ++ record { site = site; value = value.now } ∷ []) }
{
    let mut longer = Vec::from_slice(alloc, variables)?;
    longer.push(Variable {
        site,
        value: *value,
    })?;
    Ok(longer)
}

/// The value of an expression.
pub fn draw_pure(
    netlist: &mut Netlist,
    walk: &Walk<'_>,
    variables: &[Variable],
    expression: &CoreExpr,
) -> Result<Signal, AllocError>
    requires places { PlacesStand netlist.old (kept_registers walk.now) (kept_ports walk.now) [] }
    requires variables { VariablesStand netlist.old variables.now }
    requires fits { IsTrue (parts_fit (length (kept_registers walk.now)) (widths_here walk.now variables.now)
        (expr_of (widths_here walk.now variables.now) expression.now)) }
    ensures extends { IfOk result (λ drawn. Extends netlist.old netlist.new) }
    ensures stands { IfOk result (λ drawn. Stands netlist.new drawn) }
    ensures width { IfOk result (λ drawn. drawn.width ≡ expr_width (widths_here walk.now variables.now)
        (expr_of (widths_here walk.now variables.now) expression.now)) }
    ensures shows { IfOk result (λ drawn. Shows netlist.new drawn
        (λ now. number (sight_at now walk.now []) (shown_in now variables.now)
        (expr_of (widths_here walk.now variables.now) expression.now))) }
{
    let scope = Scope {
        registers: walk.setting.registers,
        ports: walk.setting.ports,
        sides: &[],
        variables,
    };
    let value = draw_expression(netlist, &scope, expression)?;
    Ok(value)
}
