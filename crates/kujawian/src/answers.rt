// An answer as C gets it.
ghost use Rattle.std.specs.Prelude.{◌≡◌};
ghost use Rattle.state.specs.Answer.{numbers};

use state::answer;
use state::answer::Answer;

// Writes what stands beside the number, and gives the number.
pub(crate) fn give(given: Answer, beside: &mut u64) -> u32
    ensures { (result, beside.new) ≡ numbers given }
{
    *beside = answer::beside(given);
    answer::number(given)
}
