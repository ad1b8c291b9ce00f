//! Expressions: the core expression of an expression in a scope, with its width, or the first check of it that fails.
ghost use Rattle.std.specs.Prelude.{◌≡◌, ◌⊎◌, None, Some, MatchResult};
ghost use Rattle.anvil_tree.specs.View.{expr_of as tree_of};
ghost use Rattle.core_term.specs.View.{expr_of};
ghost use Rattle.first_check.specs.Check.{first_refusal};
ghost use Rattle.core_file.specs.Scope.{site_of};
ghost use Rattle.core_file.specs.CoreTerm.{core_expr, width_of};
ghost use Rattle.core_file.specs.ExprChecks.{expr_checks, word_checks, word_width};
ghost use Rattle.core_file.specs.declared.error.NameErr.TheVariants.{NoMemory};
ghost use Rattle.expr_check.specs.Known.{scope_of};

use crate::nodes::{choice_width, core_operator, operator_width, read_literal};
use crate::room::boxed;
use crate::scope::Scope;
use anvil_lexer::Name;
use anvil_tree::{Expr, ExprKind};
use core_file::NameErr;
use core_term::CoreExpr;
use std::alloc::Global;

// The act that a word stands for, with the width of its value, or the first check of the word that fails.
fn read_word(at: u32, name: &Name, scope: &Scope<'_>) -> Result<(u32, u8), NameErr>
    ensures { MatchResult result
        (λ word. (first_refusal (word_checks (scope_of scope.now) at name.now) ≡ None)
        × (word.0 ≡ site_of (scope_of scope.now).variables name.now)
        × (word.1 ≡ word_width (scope_of scope.now) name.now))
        (λ fault. first_refusal (word_checks (scope_of scope.now) at name.now) ≡ Some fault) }
{
    match scope.site(name) {
        None => Err(NameErr::Unknown { at }),
        Some(site) => {
            let width = scope.width(site);
            if width == 0 {
                Err(NameErr::UnitUsed { at })
            } else {
                Ok((site, width))
            }
        }
    }
}

// The core expression of an operand, in a box of its own, and its width in bits.
#[cycle(expr)]
fn read_operand(
    alloc: Global,
    expr: &Expr,
    scope: &Scope<'_>,
) -> Result<(Box<CoreExpr>, u8), NameErr>
    ensures { MatchResult result
        (λ read. (first_refusal (expr_checks (scope_of scope.now) (tree_of expr.now)) ≡ None)
        × (expr_of (scope_of scope.now).widths read.0.value ≡ core_expr (scope_of scope.now) (tree_of expr.now))
        × (read.1 ≡ width_of (scope_of scope.now) (tree_of expr.now)))
        (λ fault. (fault ≡ NoMemory) ⊎ (first_refusal (expr_checks (scope_of scope.now) (tree_of expr.now)) ≡ Some fault)) }
{
    let (read, width) = read_expr(alloc, expr, scope)?;
    Ok((boxed(alloc, read)?, width))
}

/// The core expression, and its width in bits.
#[cycle(expr)]
#[tactic(auto, using(first_check::proofs::Walks::passes, first_check::proofs::Walks::stops))]
pub fn read_expr(alloc: Global, expr: &Expr, scope: &Scope<'_>) -> Result<(CoreExpr, u8), NameErr>
    ensures { MatchResult result
        (λ read. (first_refusal (expr_checks (scope_of scope.now) (tree_of expr.now)) ≡ None)
        × (expr_of (scope_of scope.now).widths read.0 ≡ core_expr (scope_of scope.now) (tree_of expr.now))
        × (read.1 ≡ width_of (scope_of scope.now) (tree_of expr.now)))
        (λ fault. (fault ≡ NoMemory) ⊎ (first_refusal (expr_checks (scope_of scope.now) (tree_of expr.now)) ≡ Some fault)) }
{
    let at = expr.at;
    match &expr.kind {
        ExprKind::Lit { width, value } => match read_literal(at, *width, *value) {
            Ok(bits) => Ok((CoreExpr::Lit(bits), bits.width())),
            Err(fault) => Err(fault),
        },
        ExprKind::Var(name) => match read_word(at, name, scope) {
            Ok((var, width)) => Ok((CoreExpr::Var(var), width)),
            Err(fault) => Err(fault),
        },
        ExprKind::Deref(name) => match scope.register(name) {
            Some(found) => Ok((CoreExpr::Reg(found.number), found.width)),
            None => Err(NameErr::Unknown { at }),
        },
        ExprKind::Not(operand) => match read_operand(alloc, operand, scope) {
            Ok((operand, width)) => Ok((CoreExpr::Not(operand), width)),
            Err(fault) => Err(fault),
        },
        ExprKind::Bin(operator, first, second) => {
            let (first, left) = read_operand(alloc, first, scope)?;
            match read_operand(alloc, second, scope) {
                Ok((second, right)) => match operator_width(at, *operator, left, right) {
                    Ok(width) => Ok((
                        CoreExpr::Bin(core_operator(*operator), first, second),
                        width,
                    )),
                    Err(fault) => {
                        drop((first, second));
                        Err(fault)
                    }
                },
                Err(fault) => {
                    drop(first);
                    Err(fault)
                }
            }
        }
        ExprKind::Slice { name, high, low } => match read_word(at, name, scope) {
            Ok((var, width)) => {
                if *low <= *high && *high < width as u32 {
                    Ok((
                        CoreExpr::Slice {
                            var,
                            high: *high as u8,
                            low: *low as u8,
                        },
                        (*high + 1 - *low) as u8,
                    ))
                } else {
                    Err(NameErr::BadWidth { at })
                }
            }
            Err(fault) => Err(fault),
        },
        ExprKind::Choose(condition, first, second) => {
            let (condition, one) = read_operand(alloc, condition, scope)?;
            match read_operand(alloc, first, scope) {
                Ok((first, left)) => match read_operand(alloc, second, scope) {
                    Ok((second, right)) => match choice_width(at, one, left, right) {
                        Ok(width) => Ok((CoreExpr::Choose(condition, first, second), width)),
                        Err(fault) => {
                            drop((condition, first, second));
                            Err(fault)
                        }
                    },
                    Err(fault) => {
                        drop((condition, first));
                        Err(fault)
                    }
                },
                Err(fault) => {
                    drop(condition);
                    Err(fault)
                }
            }
        }
        ExprKind::Unit => Err(NameErr::UnitUsed { at }),
    }
}
