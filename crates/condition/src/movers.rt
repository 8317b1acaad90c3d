// If a test is false, who has to move.
ghost use Rattle.std.specs.Prelude.{◌≡◌};
ghost use Rattle.model.specs.Clause.{mover};
ghost use Rattle.condition.specs.Clauses.{test_of};

use model::Mover;

// Beside the number of messages in transit. A number that is no test names nobody.
#[tactic(auto, unfolding(crate::specs::Clauses::test_of))]
pub fn who_moves(test: u16, operand: u32, count: usize) -> Mover
    ensures { result ≡ mover (test_of test operand) count }
{
    match test {
        1 => Mover::Receiver,
        2 => Mover::Sender,
        3 => {
            if count < operand as usize {
                Mover::Sender
            } else {
                Mover::Receiver
            }
        }
        4 => Mover::Sender,
        5 => Mover::Receiver,
        6 => Mover::Receiver,
        7 => Mover::Sender,
        8 => Mover::NotLinear,
        9 => Mover::NotLinear,
        _ => Mover::NotLinear,
    }
}
