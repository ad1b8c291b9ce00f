//! The variables that the acts of a thread read.
ghost use Rattle.std.specs.Prelude.{◌≡◌, ◌++◌, ◌∷◌, IfOk};
ghost use Rattle.core_term.specs.Widths.{Widths};
ghost use Rattle.core_term.specs.View.{term_of};
ghost use Rattle.demand_checks.specs.Reads.{AreReads, act_reads, kind_reads, reads_of, expr_reads};

use crate::Pair;
use core_term::{CoreAct, CoreExpr, CoreKind, CoreTerm, CoreThread};
use std::alloc::{AllocError, Global};

/// The sites of the acts that read variables, each with the site of the act that makes the variable. A wait reads none.
///
/// Refuses only where memory is refused.
pub fn reads_of(alloc: Global, thread: &CoreThread) -> Result<Vec<Pair>, AllocError>
    ensures { IfOk result (λ reads. (widths : Widths) → AreReads (term_of widths thread.now) reads.items) }
{
    let mut reads = Vec::new(alloc);
    add_reads(thread.body(), &mut reads)?;
    Ok(reads)
}

/// Adds the reads of a term at the end of `reads`.
#[cycle(reads)]
fn add_reads(term: &CoreTerm, reads: &mut Vec<Pair>) -> Result<(), AllocError>
    ensures { IfOk result (λ _. reads.new.items ≡ reads.old.items ++ reads_of term.now) }
{
    match term {
        CoreTerm::One(act) => add_act_reads(act, reads),
        CoreTerm::Then(act, rest) | CoreTerm::Both(act, rest) => {
            add_act_reads(act, reads)?;
            add_reads(rest, reads)
        }
    }
}

#[cycle(reads)]
fn add_act_reads(act: &CoreAct, reads: &mut Vec<Pair>) -> Result<(), AllocError>
    ensures { IfOk result (λ _. reads.new.items ≡ reads.old.items ++ act_reads act.now.site act.now.kind) }
{
    add_own_reads(act.site, &act.kind, reads)?;
    match &act.kind {
        CoreKind::If { yes, no, .. } => {
            add_reads(yes, reads)?;
            match no {
                None => Ok(()),
                Some(other) => add_reads(other, reads),
            }
        }
        CoreKind::Block(inner) => add_reads(inner, reads),
        _ => Ok(()),
    }
}

/// Adds the reads of an act in its own expression.
fn add_own_reads(site: u32, kind: &CoreKind, reads: &mut Vec<Pair>) -> Result<(), AllocError>
    ensures { IfOk result (λ _. reads.new.items ≡ reads.old.items ++ kind_reads site kind.now) }
{
    match kind {
        CoreKind::Set { value, .. } => add_expr_reads(site, value, reads),
        CoreKind::Send { value, .. } => add_expr_reads(site, value, reads),
        CoreKind::If { cond, .. } => add_expr_reads(site, cond, reads),
        CoreKind::Pure(value) => add_expr_reads(site, value, reads),
        _ => Ok(()),
    }
}

/// Adds the variables of an expression in the act of a site.
fn add_expr_reads(site: u32, expr: &CoreExpr, reads: &mut Vec<Pair>) -> Result<(), AllocError>
    ensures { IfOk result (λ _. reads.new.items ≡ reads.old.items ++ expr_reads site expr.now) }
{
    match expr {
        CoreExpr::Lit(_) | CoreExpr::Reg(_) => Ok(()),
        CoreExpr::Var(var) | CoreExpr::Slice { var, .. } => {
            reads.push(Pair {
                first: site,
                second: *var,
            })?;
            Ok(())
        }
        CoreExpr::Not(operand) => add_expr_reads(site, operand, reads),
        CoreExpr::Bin(_, one, other) => {
            add_expr_reads(site, one, reads)?;
            add_expr_reads(site, other, reads)
        }
        CoreExpr::Choose(cond, one, other) => {
            add_expr_reads(site, cond, reads)?;
            add_expr_reads(site, one, reads)?;
            add_expr_reads(site, other, reads)
        }
    }
}
