// What an entry answers its host, in numbers: docs/NUMBERS.md says what each means. What has no use is 0.
ghost use Rattle.std.specs.Prelude.{◌≡◌};
ghost use Rattle.answers.specs.Answers.{refused_answer};
ghost use Rattle.answers.specs.Findings.{in_no_row};

// Document 01's answer: a number, and what belongs to it.
#[repr(C)]
#[derive(Clone, Copy, PartialEq)]
pub struct Answer {
    pub number: u64,
    pub row: u64,
    pub pc: u64,
    pub value: u64,
    // How many tape words were taken.
    pub used: u64,
}

impl Answer {
    // Of a call that is refused.
    pub fn refused(number: u64) -> Answer
        ensures { result ≡ refused_answer number }
    {
        in_no_row(number, 0)
    }
}

// Of what no row met, after so many tape words.
pub(crate) fn in_no_row(number: u64, used: usize) -> Answer
    ensures { result ≡ in_no_row number used }
{
    Answer {
        number,
        row: 0,
        pc: 0,
        value: 0,
        used: used as u64,
    }
}
