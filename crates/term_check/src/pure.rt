//! Acts that are expressions.
ghost use Rattle.std.specs.Prelude.{◌≡◌, ◌⊎◌, [], true, None, Some, MatchResult};
ghost use Rattle.anvil_tree.specs.View.{expr_of as tree_of};
ghost use Rattle.core_term.specs.Sized.{words_fit_in};
ghost use Rattle.core_term.specs.View.{act_of, places_in};
ghost use Rattle.core_term.specs.Widths.{act_width};
ghost use Rattle.first_check.specs.Check.{first_refusal};
ghost use Rattle.core_file.specs.CoreTerm.{core_pure};
ghost use Rattle.core_file.specs.TermChecks.{pure_checks};
ghost use Rattle.core_file.specs.declared.error.NameErr.TheVariants.{NoMemory};
ghost use Rattle.expr_check.specs.Known.{scope_of};

use anvil_tree::{Expr, ExprKind};
use core_file::NameErr;
use core_term::CoreKind;
use expr_check::{Scope, read_expr};
use std::alloc::Global;

/// What an act of the site does that is an expression, with the width of its value: a word alone waits, and `()` does nothing.
pub fn read_pure(
    alloc: Global,
    expr: &Expr,
    scope: &Scope<'_>,
    site: u32,
) -> Result<(CoreKind, u8), NameErr>
    ensures { MatchResult result
        (λ read. (first_refusal (pure_checks (scope_of scope.now) (tree_of expr.now)) ≡ None)
        × (act_of (scope_of scope.now).widths site read.0 ≡ core_pure (scope_of scope.now) site (tree_of expr.now))
        × (read.1 ≡ act_width (scope_of scope.now).widths (core_pure (scope_of scope.now) site (tree_of expr.now)))
        × (words_fit_in (scope_of scope.now).widths read.0 ≡ true)
        × (places_in read.0 ≡ []))
        (λ fault. (fault ≡ NoMemory) ⊎ (first_refusal (pure_checks (scope_of scope.now) (tree_of expr.now)) ≡ Some fault)) }
{
    match &expr.kind {
        ExprKind::Var(name) => match scope.site(name) {
            Some(var) => Ok((CoreKind::Wait { var }, scope.width(var))),
            None => Err(NameErr::Unknown { at: expr.at }),
        },
        ExprKind::Unit => Ok((CoreKind::Unit, 0)),
        ExprKind::Lit { .. }
        | ExprKind::Deref(_)
        | ExprKind::Not(_)
        | ExprKind::Bin(_, _, _)
        | ExprKind::Slice { .. }
        | ExprKind::Choose(_, _, _) => match read_expr(alloc, expr, scope) {
            Ok((value, width)) => Ok((CoreKind::Pure(value), width)),
            Err(fault) => Err(fault),
        },
    }
}
