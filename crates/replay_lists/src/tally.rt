// How many cases agree, and how many lines that are wrong on purpose disagree.
ghost use Rattle.std.specs.Prelude.{◌≡◌, false};
ghost use Rattle.replay_lists.specs.Tallies.{nothing, with_case, with_wrong, with_line};

// What came of a line.
#[derive(Clone, Copy)]
pub struct Judged {
    pub agrees: bool,
    // what was made of the things that a case has several of: runs, scores, states
    pub parts: u64,
}

// What came of the lines so far. A count stops at the largest number, which no list reaches.
#[derive(Clone, Copy, Default)]
pub struct Tally {
    pub cases: u64,
    pub agree: u64,
    pub parts: u64,
    // lines that are wrong on purpose, and those of them that disagree
    pub wrong: u64,
    pub disagree: u64,
}

// The judgement of a line that does not agree, with so many parts.
pub fn disagrees(parts: u64) -> Judged
    ensures { result ≡ record { agrees = false; parts = parts } }
{
    Judged {
        agrees: false,
        parts,
    }
}

impl Tally {
    // Of no lines.
    pub fn new() -> Tally
        ensures { result ≡ nothing }
    {
        Tally::default()
    }

    #[tactic(auto, unfolding(crate::specs::Tallies::plus, crate::specs::Tallies::one_if))]
    fn with_case(self, judged: Judged) -> Tally
        ensures { result ≡ with_case self judged }
    {
        Tally {
            cases: self.cases.saturating_add(1),
            agree: self.agree.saturating_add(u64::from(judged.agrees)),
            parts: self.parts.saturating_add(judged.parts),
            ..self
        }
    }

    #[tactic(auto, unfolding(crate::specs::Tallies::plus, crate::specs::Tallies::one_if))]
    fn with_wrong(self, judged: Judged) -> Tally
        ensures { result ≡ with_wrong self judged }
    {
        Tally {
            wrong: self.wrong.saturating_add(1),
            disagree: self.disagree.saturating_add(u64::from(!judged.agrees)),
            ..self
        }
    }

    #[tactic(auto, unfolding(crate::specs::Tallies::with_line))]
    fn with(self, judged: Judged, wrong: bool) -> Tally
        ensures { result ≡ with_line self judged wrong }
    {
        if wrong {
            self.with_wrong(judged)
        } else {
            self.with_case(judged)
        }
    }

    // What is told of the line that was counted last.
    fn tell(self, rt: &impl Print, agrees: bool, wrong: bool) {
        let number = self.cases.saturating_add(self.wrong);
        let _ = match (agrees, wrong) {
            (true, true) => println!(rt; "line {number} is wrong on purpose, and agrees"),
            (false, false) => println!(rt; "line {number} disagrees"),
            _ => Ok(()),
        };
    }

    // Counts a line, and tells the number of a case that disagrees or of a line that is wrong on purpose and agrees. What is
    // told no contract can say.
    pub fn counted(self, rt: &impl Print, judged: Judged, wrong: bool) -> Tally
        ensures { result ≡ with_line self judged wrong }
    {
        let tally = self.with(judged, wrong);
        tally.tell(rt, judged.agrees, wrong);
        tally
    }

    // As `label programs: 3 of 3 cases agree, 7 runs; 2 of 2 lines that are wrong on purpose disagree`. No contract can say
    // what is printed; `rt ci` holds it to the program's file `stdout`.
    pub(crate) fn print(self, rt: &impl Print, name: &str, parts: &str) {
        let _ = println!(rt;
            "{name}: {} of {} cases agree, {} {parts}; {} of {} lines that are wrong on purpose disagree",
            self.agree, self.cases, self.parts, self.disagree, self.wrong
        );
    }
}
