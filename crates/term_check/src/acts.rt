//! Acts without acts inside them: what each names and computes, or the first check of it that fails.
ghost use Rattle.std.specs.Prelude.{◌≡◌, ◌⊎◌, ◌∷◌, [], None, Some, Bool, MatchResult};
ghost use Rattle.anvil_tree.specs.View.{expr_of as tree_of};
ghost use Rattle.anvil_tree.specs.Tree.{set, send};
ghost use Rattle.core_term.specs.View.{expr_of};
ghost use Rattle.first_check.specs.Check.{first_refusal, must};
ghost use Rattle.core_file.specs.Refused.{is_count};
ghost use Rattle.core_file.specs.Scope.{number_among, port_number};
ghost use Rattle.core_file.specs.CoreTerm.{core_expr};
ghost use Rattle.core_file.specs.TermChecks.{act_checks, port_checks};
ghost use Rattle.core_file.specs.declared.error.NameErr.TheVariants.{NoMemory};
ghost use Rattle.expr_check.specs.Known.{scope_of};
ghost use Rattle.term_check.specs.Taken.{taken_of};

use crate::taken::Taken;
use anvil_lexer::Name;
use anvil_tree::Expr;
use core_file::NameErr;
use core_term::CoreExpr;
use expr_check::{PortPlace, Scope, differ, read_expr};
use std::alloc::Global;

/// The most cycles of a `cycle`.
const LONGEST_DELAY: u32 = 65535;

/// Whether a `cycle` can have so many cycles.
pub fn is_count(count: u32) -> bool
    ensures { result ≡ is_count count }
{
    count >= 1 && count <= LONGEST_DELAY
}

/// A `set` at a place: the number of its register, and its value.
#[tactic(auto, using(first_check::proofs::Walks::passes, first_check::proofs::Walks::stops))]
pub fn read_set(
    alloc: Global,
    at: u32,
    register: &Name,
    register_at: u32,
    value: &Expr,
    scope: &Scope<'_>,
    taken: &Taken,
) -> Result<(u32, CoreExpr), NameErr>
    ensures { MatchResult result
        (λ read. (first_refusal (act_checks (scope_of scope.now) (taken_of taken.now) 0 (set at register.now register_at (tree_of value.now))) ≡ None)
        × (read.0 ≡ number_among (scope_of scope.now).registers register.now)
        × (expr_of (scope_of scope.now).widths read.1 ≡ core_expr (scope_of scope.now) (tree_of value.now)))
        (λ fault. (fault ≡ NoMemory)
        ⊎ (first_refusal (act_checks (scope_of scope.now) (taken_of taken.now) 0 (set at register.now register_at (tree_of value.now))) ≡ Some fault)) }
{
    match scope.register(register) {
        None => Err(NameErr::Unknown { at: register_at }),
        Some(found) => {
            if taken.registers.contains(register) {
                return Err(NameErr::RegisterShared { at });
            }
            let (value, width) = read_expr(alloc, value, scope)?;
            if width == found.width {
                Ok((found.number, value))
            } else {
                drop(value);
                Err(differ(at, found.width, width))
            }
        }
    }
}

/// The port of a `send` or a `recv` at a place. A `recv` wants a received port.
pub fn read_port(
    at: u32,
    endpoint: &Name,
    endpoint_at: u32,
    message: &Name,
    message_at: u32,
    received: bool,
    scope: &Scope<'_>,
    taken: &Taken,
) -> Result<PortPlace, NameErr>
    ensures { MatchResult result
        (λ port. (first_refusal (port_checks (scope_of scope.now) (taken_of taken.now) received at endpoint.now endpoint_at message.now message_at) ≡ None)
        × (port.number ≡ port_number (scope_of scope.now) endpoint.now message.now)
        × (port.width ≡ (scope_of scope.now).widths.ports (port_number (scope_of scope.now) endpoint.now message.now)))
        (λ fault. first_refusal (port_checks (scope_of scope.now) (taken_of taken.now) received at endpoint.now endpoint_at message.now message_at) ≡ Some fault) }
{
    if !scope.has_endpoint(endpoint) {
        return Err(NameErr::Unknown { at: endpoint_at });
    }
    match scope.port(endpoint, message) {
        None => Err(NameErr::Unknown { at: message_at }),
        Some(port) => {
            if port.received != received {
                return Err(NameErr::WrongSide { at });
            }
            if taken.endpoints.contains(endpoint) {
                return Err(NameErr::EndpointShared { at });
            }
            Ok(port)
        }
    }
}

/// A `send` at a place: the number of its port, and its value.
#[tactic(auto, using(first_check::proofs::Walks::passes, first_check::proofs::Walks::stops))]
pub fn read_send(
    alloc: Global,
    at: u32,
    endpoint: &Name,
    endpoint_at: u32,
    message: &Name,
    message_at: u32,
    value: &Expr,
    scope: &Scope<'_>,
    taken: &Taken,
) -> Result<(u32, CoreExpr), NameErr>
    ensures { MatchResult result
        (λ read. (first_refusal (act_checks (scope_of scope.now) (taken_of taken.now) 0 (send at endpoint.now endpoint_at message.now message_at (tree_of value.now))) ≡ None)
        × (read.0 ≡ port_number (scope_of scope.now) endpoint.now message.now)
        × (expr_of (scope_of scope.now).widths read.1 ≡ core_expr (scope_of scope.now) (tree_of value.now)))
        (λ fault. (fault ≡ NoMemory)
        ⊎ (first_refusal (act_checks (scope_of scope.now) (taken_of taken.now) 0 (send at endpoint.now endpoint_at message.now message_at (tree_of value.now))) ≡ Some fault)) }
{
    match read_port(
        at,
        endpoint,
        endpoint_at,
        message,
        message_at,
        false,
        scope,
        taken,
    ) {
        Ok(port) => {
            let (value, width) = read_expr(alloc, value, scope)?;
            if width == port.width {
                Ok((port.number, value))
            } else {
                drop(value);
                Err(differ(at, port.width, width))
            }
        }
        Err(fault) => Err(fault),
    }
}
