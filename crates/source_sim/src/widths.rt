//! The widths of the acts of a body by their sites, found in one walk.
ghost use Rattle.std.specs.Prelude.{◌≡◌, IfOk, slice_get, slice_set};
ghost use Rattle.sim_laws.specs.WidthsFound.{or_zero as known_or_zero, register_width as width_of_register, port_width as width_of_port, result_found, expr_found, with_width, walk, walk_act};
ghost use Rattle.source_sim.specs.NowSeen.{width_alone};

use core_term::{BinOp, CoreAct, CoreExpr, CoreKind, CorePort, CoreReg, CoreTerm};
use std::alloc::AllocError;

fn or_zero(width: Option<u8>) -> u8
    ensures { result ≡ known_or_zero width }
{
    match width {
        None => 0,
        Some(width) => width,
    }
}

fn width_at(widths: &[u8], variable: u32) -> u8
    ensures { result ≡ known_or_zero (slice_get widths.now variable) }
{
    match widths.get(variable as usize) {
        None => 0,
        Some(width) => *width,
    }
}

fn register_width(regs: &[CoreReg], register: u32) -> u8
    ensures { result ≡ width_of_register (slice_get regs.now register) }
{
    match regs.get(register as usize) {
        None => 0,
        Some(reg) => reg.width,
    }
}

fn port_width(ports: &[CorePort], port: u32) -> u8
    ensures { result ≡ width_of_port (slice_get ports.now port) }
{
    match ports.get(port as usize) {
        None => 0,
        Some(port) => port.width,
    }
}

fn result_width(operator: BinOp, left: u8, right: u8) -> u8
    ensures { result ≡ result_found operator left right }
{
    match operator {
        BinOp::Add
        | BinOp::Sub
        | BinOp::Mul
        | BinOp::And
        | BinOp::Or
        | BinOp::Xor
        | BinOp::Shl
        | BinOp::Shr => left,
        BinOp::Eq | BinOp::Ne | BinOp::Lt | BinOp::Le | BinOp::Gt | BinOp::Ge => 1,
        BinOp::Cat => left.saturating_add(right),
    }
}

fn expr_width(expr: &CoreExpr, regs: &[CoreReg], widths: &[u8]) -> u8
    ensures { result ≡ expr_found regs.now widths.now expr.now }
{
    match expr {
        CoreExpr::Lit(number) => number.width(),
        CoreExpr::Var(variable) => width_at(widths, *variable),
        CoreExpr::Reg(register) => register_width(regs, *register),
        CoreExpr::Not(inner) => expr_width(inner, regs, widths),
        CoreExpr::Bin(operator, left, right) => result_width(
            *operator,
            expr_width(left, regs, widths),
            expr_width(right, regs, widths),
        ),
        CoreExpr::Slice { high, low, .. } => high.saturating_add(1).saturating_sub(*low),
        CoreExpr::Choose(_, yes, _) => expr_width(yes, regs, widths),
    }
}

fn push(width: u8, widths: &mut Vec<u8>) -> Result<u8, AllocError>
    ensures { IfOk result (λ found.
        with_width widths.old.items width ≡ record { width = found; widths = widths.new.items }) }
{
    widths.push(width)?;
    Ok(width)
}

/// The width of the value of an act of no parts.
fn alone(act: &CoreAct, ports: &[CorePort], regs: &[CoreReg], widths: &[u8]) -> u8
    ensures { result ≡ width_alone ports.now regs.now widths.now act.now.kind }
{
    match &act.kind {
        CoreKind::Recv { port } => port_width(ports, *port),
        CoreKind::Wait { var } => width_at(widths, *var),
        CoreKind::Pure(expr) => expr_width(expr, regs, widths),
        _ => 0,
    }
}

/// Adds the widths of the acts of `term` at the end of `widths`, and gives the width of the term itself. Unit has the
/// width 0.
#[cycle(walk)]
pub fn add_widths(
    term: &CoreTerm,
    ports: &[CorePort],
    regs: &[CoreReg],
    widths: &mut Vec<u8>,
) -> Result<u8, AllocError>
    ensures { IfOk result (λ found. walk ports.now regs.now term.now widths.old.items
        ≡ record { width = found; widths = widths.new.items }) }
{
    match term {
        CoreTerm::One(act) => add_act_widths(act, ports, regs, widths),
        CoreTerm::Then(act, rest) | CoreTerm::Both(act, rest) => {
            add_act_widths(act, ports, regs, widths)?;
            add_widths(rest, ports, regs, widths)
        }
    }
}

#[cycle(walk)]
fn add_act_widths(
    act: &CoreAct,
    ports: &[CorePort],
    regs: &[CoreReg],
    widths: &mut Vec<u8>,
) -> Result<u8, AllocError>
    ensures { IfOk result (λ found. walk_act ports.now regs.now act.now.kind widths.old.items
        ≡ record { width = found; widths = widths.new.items }) }
{
    match &act.kind {
        CoreKind::If { yes, no, word, .. } => {
            let width = push(or_zero(*word), widths)?;
            add_widths(yes, ports, regs, widths)?;
            if let Some(other) = no {
                add_widths(other, ports, regs, widths)?;
            }
            Ok(width)
        }
        CoreKind::Block(inner) => {
            let place = widths.len();
            push(0, widths)?;
            let width = add_widths(inner, ports, regs, widths)?;
            set_width(place, width, widths.as_mut_slice());
            Ok(width)
        }
        _ => push(alone(act, ports, regs, widths.as_slice()), widths),
    }
}

fn set_width(place: usize, width: u8, widths: &mut [u8])
    ensures { widths.new ≡ slice_set widths.old place width }
{
    if place < widths.len() {
        widths[place] = width;
    }
}
