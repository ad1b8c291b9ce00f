//! The earlier of two violations.
ghost use Rattle.std.specs.Prelude.{◌≡◌};
ghost use Rattle.core_term.specs.Violations.{rule_number};
ghost use Rattle.timing_check.specs.Earlier.{earlier_than, earliest, first_of, is_earlier};

use core_term::{Rule, Violation};

/// The number of a rule.
fn rule_number(rule: Rule) -> u8
    ensures { result ≡ rule_number rule }
{
    match rule {
        Rule::V2 => 2,
        Rule::V3 => 3,
        Rule::V4 => 4,
        Rule::V5 => 5,
        Rule::V6 => 6,
        Rule::V7 => 7,
        Rule::V8 => 8,
    }
}

/// Whether one violation comes before another: by rule, then by the first site, then by the second.
fn is_earlier(one: &Violation, other: &Violation) -> bool
    ensures { result ≡ is_earlier one.now other.now }
{
    let number = rule_number(one.rule);
    let other_number = rule_number(other.rule);
    number < other_number
        || (number == other_number
            && (one.first < other.first || (one.first == other.first && one.second < other.second)))
}

/// The earlier of a violation and one that may be.
fn earlier_than(one: Violation, other: Option<Violation>) -> Violation
    ensures { result ≡ earlier_than one other }
{
    match other {
        None => one,
        Some(second) => {
            if is_earlier(&one, &second) {
                one
            } else {
                second
            }
        }
    }
}

/// The earlier of two violations, where there are any.
pub fn earliest(one: Option<Violation>, other: Option<Violation>) -> Option<Violation>
    ensures { result ≡ earliest one other }
{
    match one {
        None => other,
        Some(first) => Some(earlier_than(first, other)),
    }
}

/// The first of a list.
pub fn first_of(violations: &[Violation]) -> Option<Violation>
    ensures { result ≡ first_of violations.now }
{
    violations.first().copied()
}
