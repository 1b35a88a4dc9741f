// What a search answers its host.
ghost use Rattle.std.specs.Prelude.{◌≡◌};
ghost use Rattle.search.specs.Entry.{search_answer};

use answers::answer::Answer;
use checks::refusal::Refusal;
use rounds::call::Ended;

// The answer in numbers, of a call that is refused or searched.
pub fn search_answer(answer: Result<Ended, Refusal>) -> Answer
    ensures { result ≡ search_answer answer }
{
    match answer {
        Ok(ended) => ended.finding.answer(ended.used),
        Err(refusal) => Answer::refused(refusal.number()),
    }
}
