//! The value of an expression in a cycle.
ghost use Rattle.std.specs.Prelude.{◌≡◌, ◌<◌, length, slice_index_or};
ghost use Rattle.core_term.specs.Widths.{expr_width};
ghost use Rattle.sim_laws.specs.Advance.{evaluate as evaluated, state_at, zero_bit};
ghost use Rattle.source_sim.specs.NowSeen.{widths_in, expr_now, ExprFits, IsSeen};

use crate::now::Now;
use crate::operator::operate;
use anvil_bits::Bits;
use core_term::CoreExpr;
use sim_laws::ActState;

/// What a variable is by now.
fn made_by(acts: &[ActState], variable: u32) -> Bits
    requires { variable < length acts.now }
    ensures { result ≡ (state_at acts.now variable).made }
{
    acts[variable as usize].made
}

/// What a register shows.
fn shown_by(registers: &[Bits], register: u32) -> Bits
    requires { register < length registers.now }
    ensures { result ≡ slice_index_or registers.now register zero_bit }
{
    registers[register as usize]
}

/// The value of an expression, with variables as they are made by now.
pub fn evaluate(expr: &CoreExpr, now: &Now, acts: &[ActState]) -> Bits
    requires fits { ExprFits now.now (expr_now now.now expr.now) }
    requires seen { IsSeen now.now acts.now }
    ensures value { result ≡ evaluated now.now.registers.now acts.now (expr_now now.now expr.now) }
    ensures width { result.width ≡ expr_width (widths_in now.now) (expr_now now.now expr.now) }
{
    match expr {
        CoreExpr::Lit(number) => *number,
        CoreExpr::Var(variable) => made_by(acts, *variable),
        CoreExpr::Reg(register) => shown_by(now.registers, *register),
        CoreExpr::Not(inner) => evaluate(inner, now, acts).not(),
        CoreExpr::Bin(operator, left, right) => {
            let x = evaluate(left, now, acts);
            let y = evaluate(right, now, acts);
            operate(*operator, x, y)
        }
        CoreExpr::Slice { var, high, low } => made_by(acts, *var).slice(*high, *low),
        CoreExpr::Choose(condition, yes, no) => {
            let chosen = evaluate(condition, now, acts);
            let x = evaluate(yes, now, acts);
            let y = evaluate(no, now, acts);
            chosen.mux(x, y)
        }
    }
}
