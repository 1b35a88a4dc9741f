// What a line says of an answer and of a mean.
ghost use Rattle.std.specs.Prelude.{◌≡◌, ◌+◌, ◌≤◌};
ghost use Rattle.replay_lists.specs.Answers.{is_answer, mean_at};

use crate::columns::number_at;
use answers::answer::Answer;
use means::MeanType;

// Columns, counted from the first of an answer, where its number stands.
const PC: usize = 1;

const VALUE: usize = 2;

const USED: usize = 3;

// Whether number, pc, value and used count are those in the columns from this one on.
#[tactic(auto, unfolding(crate::specs::Answers::is_answer))]
pub fn is_answer(numbers: &[u64], at: usize, answer: Answer) -> bool
    requires { at ≤ 2000 }
    ensures { result ≡ is_answer numbers.now at answer }
{
    answer.number == number_at(numbers, at)
        && answer.pc == number_at(numbers, at + PC)
        && answer.value == number_at(numbers, at + VALUE)
        && answer.used == number_at(numbers, at + USED)
}

// The mean in a column, if there is one of this number.
#[tactic(auto, unfolding(crate::specs::Answers::mean_at))]
pub fn mean_at(numbers: &[u64], at: usize) -> Option<MeanType>
    ensures { result ≡ mean_at numbers.now at }
{
    match number_at(numbers, at) {
        0 => Some(MeanType::Arithmetic),
        1 => Some(MeanType::Harmonic),
        _ => None,
    }
}
