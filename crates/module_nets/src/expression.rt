//! Nets of expressions.
ghost use Rattle.std.specs.Prelude.{◌≡◌, ◌≤◌, ◌<◌, ◌+◌, ◌-◌, IfOk, IsTrue, length, not};
ghost use Rattle.core_term.specs.Again.{number};
ghost use Rattle.core_term.specs.Operators.{operate};
ghost use Rattle.core_term.specs.Sized.{operands_fit, parts_fit};
ghost use Rattle.core_term.specs.View.{expr_of};
ghost use Rattle.core_term.specs.Widths.{expr_width, result_width};
ghost use Rattle.module_nets.specs.Netlist.{Extends, Stands};
ghost use Rattle.module_nets.specs.Shown.{Moment, IsMomentOf, Shows, shown};
ghost use Rattle.module_nets.specs.Shifts.{stays};
ghost use Rattle.module_nets.specs.Signals.{AllStand, sight_of, variables_shown, widths_of};

use crate::netlist::Netlist;
use crate::scope::Scope;
use crate::signal::Signal;
use anvil_bits::Bits;
use core_term::{BinOp, CoreExpr};
use std::alloc::AllocError;
use sv_tree::SvOperand;

/// Draws the nets of an expression, one for each operator, and gives the signal of its value, which is read again in each cycle.
pub fn draw_expression(
    netlist: &mut Netlist,
    scope: &Scope,
    expression: &CoreExpr,
) -> Result<Signal, AllocError>
    requires scope { AllStand netlist.old scope.now }
    requires fits { IsTrue (parts_fit (length scope.now.registers.now) (widths_of scope.now)
        (expr_of (widths_of scope.now) expression.now)) }
    ensures extends { IfOk result (λ drawn. Extends netlist.old netlist.new) }
    ensures scope { IfOk result (λ drawn. AllStand netlist.new scope.now) }
    ensures stands { IfOk result (λ drawn. Stands netlist.new drawn) }
    ensures width { IfOk result (λ drawn. drawn.width ≡
        expr_width (widths_of scope.now) (expr_of (widths_of scope.now) expression.now)) }
    ensures shows { IfOk result (λ drawn. Shows netlist.new drawn
        (λ now. number (sight_of now scope.now) (variables_shown now scope.now)
        (expr_of (widths_of scope.now) expression.now))) }
{
    match expression {
        CoreExpr::Lit(bits) => Ok(Signal::literal(*bits)),
        CoreExpr::Var(variable) => Ok(scope.variable(*variable)),
        CoreExpr::Reg(register) => Ok(scope.register(*register)),
        CoreExpr::Not(operand) => {
            let operand = draw_expression(netlist, scope, operand)?;
            netlist.not(&operand)
        }
        CoreExpr::Bin(op, left, right) => {
            let left = draw_expression(netlist, scope, left)?;
            let right = draw_expression(netlist, scope, right)?;
            draw_operator(netlist, *op, &left, &right)
        }
        CoreExpr::Slice { var, high, low } => netlist.slice(&scope.variable(*var), *high, *low),
        CoreExpr::Choose(condition, first, second) => {
            let condition = draw_expression(netlist, scope, condition)?;
            let first = draw_expression(netlist, scope, first)?;
            let second = draw_expression(netlist, scope, second)?;
            netlist.choose(&condition, &first, &second)
        }
    }
}

/// What an operator of two operands gives. A shift by a literal of the width or more, which tools misread, is the literal 0.
pub fn draw_operator(
    netlist: &mut Netlist,
    op: BinOp,
    left: &Signal,
    right: &Signal,
) -> Result<Signal, AllocError>
    requires left { Stands netlist.old left.now }
    requires right { Stands netlist.old right.now }
    requires fits { IsTrue (operands_fit op left.now.width right.now.width) }
    ensures extends { IfOk result (λ drawn. Extends netlist.old netlist.new) }
    ensures stands { IfOk result (λ drawn. Stands netlist.new drawn) }
    ensures width { IfOk result (λ drawn. drawn.width ≡ result_width op left.now.width right.now.width) }
    ensures shows { IfOk result (λ drawn. Shows netlist.new drawn
        (λ now. operate op (result_width op left.now.width right.now.width) right.now.width
        (shown now left.now) (shown now right.now))) }
{
    if shifts_out(op, left.width, right.operand) {
        return Ok(Signal::literal(Bits::new(left.width, 0)));
    }
    netlist.bin(op, left, right)
}

/// Whether the operator is a shift by a literal of the width or more.
fn shifts_out(op: BinOp, width: u8, amount: SvOperand) -> bool
    ensures { result ≡ not (stays op width amount) }
{
    match (op, amount) {
        (BinOp::Shl | BinOp::Shr, SvOperand::Lit(number)) => number.value() >= u64::from(width),
        _ => false,
    }
}
