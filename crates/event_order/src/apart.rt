//! Whether two events exclude each other, by the sides of `if`s in which they lie.
ghost use Rattle.std.specs.Prelude.{◌≡◌};
ghost use Rattle.event_graph.specs.Forms.{one_opposes, oppose, some_oppose};

use event_graph::Arm;

/// Whether some arm of the one event and some arm of the other are different sides of one `if`, in one turn.
pub fn are_apart(arms: &[Arm], others: &[Arm]) -> bool
    ensures { result ≡ some_oppose arms.now others.now }
{
    for arm in arms {
        if opposes_one(*arm, others) {
            return true;
        }
    }
    false
}

fn opposes_one(arm: Arm, others: &[Arm]) -> bool
    ensures { result ≡ one_opposes arm others.now }
{
    for other in others {
        if opposes(arm, *other) {
            return true;
        }
    }
    false
}

fn opposes(arm: Arm, other: Arm) -> bool
    ensures { result ≡ oppose arm other }
{
    arm.turn == other.turn && arm.site == other.site && arm.yes != other.yes
}
