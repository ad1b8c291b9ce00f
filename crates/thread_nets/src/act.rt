//! The nets that an act has of its own: the pulses up to its begin, the value that it uses, how it decides and which side
//! it shows.
ghost use Rattle.std.specs.Prelude.{◌≡◌, ℕ, ◌<◌, ◌≤◌, List, [], IfOk, if◌then◌else◌, length, true};
ghost use Rattle.core_term.specs.Term.{Expr, Act};
ghost use Rattle.core_term.specs.Acts.{Uses};
ghost use Rattle.core_term.specs.Sized.{parts_fit};
ghost use Rattle.core_term.specs.View.{act_of};
ghost use Rattle.core_term.specs.Widths.{Widths};
ghost use Rattle.module_nets.specs.Netlist.{Extends};
ghost use Rattle.module_nets.specs.Shown.{Moment, IsMomentOf};
ghost use Rattle.module_nets.specs.Bits.{IsBit, Tells, told};
ghost use Rattle.module_nets.specs.Signals.{PlacesStand, VariablesStand};
ghost use Rattle.pulse_nets.specs.Pulses.{pulse_at, pulses_told};
ghost use Rattle.machine_parts.specs.Parts.{bit_at, node_at};
ghost use Rattle.machine_parts.specs.Nodes.{AreBits, WaitBelow};
ghost use Rattle.thread_nets.specs.Walk.{act_at, begins_in, is_choice, kept_ports, kept_registers, kept_sides};
ghost use Rattle.thread_nets.specs.Walk.{nodes_in, widths_here, ActPlan, Ground, OwnDrawn, ReadOnce, SoFar, Step};

use crate::setting::{Drawn, Walk, draw_pure};
use core_term::{CoreAct, CoreKind};
use module_nets::{Netlist, Signal, Variable};
use pulse_nets::Pulse;
use std::alloc::AllocError;
use turn_nets::{TurnSetting, bit_of, draw_below, zero};

/// Draws what an act has of its own.
pub fn draw_own(
    netlist: &mut Netlist,
    walk: &Walk<'_>,
    variables: &[Variable],
    act: &CoreAct,
    drawn: &mut Drawn,
) -> Result<(), AllocError>
    requires { (scope : List Act) × ActPlan netlist.old walk.now drawn.old variables.now scope
        (act_at walk.now scope act.now.site act.now.kind) }
    ensures { IfOk result (λ done. (scope : List Act) → ActPlan netlist.old walk.now drawn.old variables.now scope
        (act_at walk.now scope act.now.site act.now.kind) →
        OwnDrawn netlist.old netlist.new walk.now drawn.old drawn.new scope
        (act_at walk.now scope act.now.site act.now.kind)) }
{
    draw_to_begin(netlist, walk, act.site, drawn)?;
    let value = draw_used(netlist, walk, variables, act)?;
    if decides(&act.kind) {
        let side = draw_side(netlist, walk, act.site, &value, &drawn.pulses)?;
        drawn.add(&value, &value, &side)?;
        Ok(())
    } else {
        drawn.add(&value, &zero(), &zero())?;
        Ok(())
    }
}

/// Draws the pulses up to the begin of the next act. They wait for earlier decisions alone.
fn draw_to_begin(
    netlist: &mut Netlist,
    walk: &Walk<'_>,
    site: u32,
    drawn: &mut Drawn,
) -> Result<(), AllocError>
    requires ground { Ground netlist.old walk.now }
    requires so_far { SoFar netlist.old walk.now drawn.old }
    requires next { site ≡ length drawn.old.values.items }
    requires inside { site < length (begins_in walk.now) }
    ensures step { IfOk result (λ done. Step netlist.old netlist.new walk.now drawn.old drawn.new) }
    ensures begun { IfOk result (λ done. node_at (begins_in walk.now) site < length drawn.new.pulses.items) }
    ensures values { IfOk result (λ done. drawn.new.values.items ≡ drawn.old.values.items) }
    ensures decisions { IfOk result (λ done. drawn.new.decisions.items ≡ drawn.old.decisions.items) }
    ensures sides { IfOk result (λ done. drawn.new.sides.items ≡ drawn.old.sides.items) }
{
    let begin = walk.setting.plan.begins[site as usize];
    draw_pulses(netlist, walk, begin + 1, drawn)?;
    Ok(())
}

/// Draws the pulses below a number that are not drawn yet.
pub fn draw_pulses(
    netlist: &mut Netlist,
    walk: &Walk<'_>,
    bound: u32,
    drawn: &mut Drawn,
) -> Result<(), AllocError>
    requires ground { Ground netlist.old walk.now }
    requires so_far { SoFar netlist.old walk.now drawn.old }
    requires inside { bound ≤ length (nodes_in walk.now) }
    requires known { WaitBelow (nodes_in walk.now) bound (length drawn.old.decisions.items) }
    ensures step { IfOk result (λ done. Step netlist.old netlist.new walk.now drawn.old drawn.new) }
    ensures reaches { IfOk result (λ done. bound ≤ length drawn.new.pulses.items) }
    ensures values { IfOk result (λ done. drawn.new.values.items ≡ drawn.old.values.items) }
    ensures decisions { IfOk result (λ done. drawn.new.decisions.items ≡ drawn.old.decisions.items) }
    ensures sides { IfOk result (λ done. drawn.new.sides.items ≡ drawn.old.sides.items) }
{
    let setting = TurnSetting {
        nodes: &walk.setting.plan.nodes,
        states: &walk.setting.states.nodes,
        wires: walk.setting.wires,
    };
    draw_below(
        netlist,
        &setting,
        &walk.begin,
        walk.tails,
        &drawn.decisions,
        bound,
        &mut drawn.pulses,
    )?;
    Ok(())
}

/// The value that an act uses: that of a `set` or a `send`, or the condition of an `if`. Other acts use none.
fn draw_used(
    netlist: &mut Netlist,
    walk: &Walk<'_>,
    variables: &[Variable],
    act: &CoreAct,
) -> Result<Signal, AllocError>
    requires places { PlacesStand netlist.old (kept_registers walk.now) (kept_ports walk.now) [] }
    requires variables { VariablesStand netlist.old variables.now }
    requires fits { (used : Expr) →
        Uses (act_of (widths_here walk.now variables.now) act.now.site act.now.kind) used →
        parts_fit (length (kept_registers walk.now)) (widths_here walk.now variables.now) used ≡ true }
    ensures extends { IfOk result (λ value. Extends netlist.old netlist.new) }
    ensures used { IfOk result (λ value. (used : Expr) →
        Uses (act_of (widths_here walk.now variables.now) act.now.site act.now.kind) used →
        ReadOnce netlist.new walk.now variables.now value used) }
{
    match &act.kind {
        CoreKind::Set { value, .. } => draw_pure(netlist, walk, variables, value),
        CoreKind::Send { value, .. } => draw_pure(netlist, walk, variables, value),
        CoreKind::If { cond, .. } => draw_pure(netlist, walk, variables, cond),
        CoreKind::Recv { .. } | CoreKind::Cycle(_) | CoreKind::Unit => Ok(Signal::none()),
        CoreKind::Block(_) | CoreKind::Wait { .. } | CoreKind::Pure(_) => Ok(Signal::none()),
    }
}

/// Whether an act is an `if`.
fn decides(kind: &CoreKind) -> bool
    ensures { (widths : Widths) (site : ℕ) → result ≡ is_choice (act_of widths site kind.now) }
{
    match kind {
        CoreKind::If { .. } => true,
        _ => false,
    }
}

/// The side that an `if` shows: how it decides as it begins, and else what was kept.
fn draw_side(
    netlist: &mut Netlist,
    walk: &Walk<'_>,
    site: u32,
    decision: &Signal,
    pulses: &[Pulse],
) -> Result<Signal, AllocError>
    requires decision { IsBit netlist.old decision.now }
    requires kept { AreBits netlist.old (kept_sides walk.now) }
    requires inside { site < length (begins_in walk.now) }
    requires begun { node_at (begins_in walk.now) site < length pulses.now }
    requires pulse { IsBit netlist.old (pulse_at pulses.now (node_at (begins_in walk.now) site)).pulse }
    ensures extends { IfOk result (λ side. Extends netlist.old netlist.new) }
    ensures bit { IfOk result (λ side. IsBit netlist.new side) }
    ensures tells { IfOk result (λ side. Tells netlist.new side
        (λ now. if pulses_told now pulses.now (node_at (begins_in walk.now) site)
        then told now decision.now
        else told now (bit_at (kept_sides walk.now) site))) }
{
    let begin = walk.setting.plan.begins[site as usize];
    let kept = bit_of(&walk.setting.states.sides, site as usize);
    let side = netlist.choose(&pulses[begin as usize].pulse, decision, &kept)?;
    Ok(side)
}
