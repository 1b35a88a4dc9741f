// How many lines of a list agree, and how many lines that are wrong on purpose disagree.
use replay_lists::tally::Judged;

// Where the scope paper departs from the manual, by the mark of a line.
#[derive(Clone, Copy)]
pub(crate) enum Departure {
    Lui,
    Jalr,
    ZeroDivisor,
}

#[derive(Clone, Copy)]
pub(crate) enum Verdict {
    Disagrees,
    Agrees,
    // agrees with the scope paper, and the manual says something else
    Departs(Departure),
}

// What came of the lines so far: at the start, of none.
#[derive(Clone, Copy, Default)]
pub(crate) struct Tally {
    // their parts are the departures
    pub(crate) lines: replay_lists::tally::Tally,
    pub(crate) lui: u64,
    pub(crate) jalr: u64,
    pub(crate) zero_divisors: u64,
}

impl Verdict {
    fn judged(self) -> Judged {
        Judged {
            agrees: !matches!(self, Verdict::Disagrees),
            parts: u64::from(matches!(self, Verdict::Departs(_))),
        }
    }
}

impl Tally {
    fn with_departure(mut self, departure: Departure) -> Tally {
        let count = match departure {
            Departure::Lui => &mut self.lui,
            Departure::Jalr => &mut self.jalr,
            Departure::ZeroDivisor => &mut self.zero_divisors,
        };
        *count = count.saturating_add(1);
        self
    }

    pub(crate) fn counted(self, rt: &impl Print, verdict: Verdict, wrong: bool) -> Tally {
        let tally = Tally {
            lines: self.lines.counted(rt, verdict.judged(), wrong),
            ..self
        };
        match verdict {
            Verdict::Departs(departure) if !wrong => tally.with_departure(departure),
            _ => tally,
        }
    }
}
