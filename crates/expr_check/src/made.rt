//! The acts whose values stand where an act begins: those before it in its chain, and in the chains around it.
ghost use Rattle.std.specs.Prelude.{◌≡◌, false, true, bytes_eq, MatchOption};
ghost use Rattle.core_file.specs.Scope.{is_bound, site_of};
ghost use Rattle.expr_check.specs.Known.{variables_of, width_at};

use anvil_lexer::Name;

/// Acts, innermost first. Each has the name that a `let` binds to it, its site, and the width of its value, which is 0 where it has none.
#[derive(Drop)]
pub enum Made<'a> {
    Nothing,
    Act {
        name: &'a Option<Name>,
        site: u32,
        width: u8,
        outer: &'a Made<'a>,
    },
}

/// The site of the innermost act that is bound to the name.
pub fn find_site(made: &Made<'_>, name: &Name) -> Option<u32>
    ensures { MatchOption result
        (is_bound (variables_of made.now) name.now ≡ false)
        (λ site. (is_bound (variables_of made.now) name.now ≡ true) × (site ≡ site_of (variables_of made.now) name.now)) }
{
    match made {
        Made::Nothing => None,
        Made::Act {
            name: bound,
            site,
            outer,
            ..
        } => match bound {
            None => find_site(outer, name),
            Some(bound) => {
                if name.bytes() == bound.bytes() {
                    Some(*site)
                } else {
                    find_site(outer, name)
                }
            }
        },
    }
}

/// The width of the value of the act of a site, and 0 where no such act is among them.
pub fn find_width(made: &Made<'_>, wanted: u32) -> u8
    ensures { result ≡ width_at made.now wanted }
{
    match made {
        Made::Nothing => 0,
        Made::Act {
            site,
            width,
            outer,
            ..
        } => {
            if wanted == *site {
                *width
            } else {
                find_width(outer, wanted)
            }
        }
    }
}
