// The calls that count in a lent table, as flat functions.
ghost use Rattle.std.specs.Prelude.{◌≡◌, ◌≤◌};
ghost use Rattle.loader.specs.Loading.{image};
ghost use Rattle.options.specs.Means.{mean_numbered};
ghost use Rattle.scoring.specs.ByTable.{TableScoresBounded};
ghost use Rattle.search.specs.ByTable.{TableDemanded, TableAgesTold};
ghost use Rattle.tavvinur.specs.Flat.{options_of};
ghost use Rattle.tavvinur.specs.ByTable.{scored, flat_scored, scored_left, table_score_left, TableAlwaysScored, search_left_with, table_search_left};

use crate::{MOST_MEAN, Options, UNKNOWN_MEAN};
use answers::answer::Answer;
use loader::Program;
use options::{RaritySimulationOptions, mean_numbered};
use scoring::ScoringError;
use search::answer::search_answer;

// What a scoring by a table answers: its number, and the number of increments.
#[repr(C)]
#[derive(Clone, Copy)]
pub struct Scored {
    pub number: u64,
    pub increments: u64,
}

impl Scored {
    // Of a call that is refused.
    fn refused(number: u64) -> Scored
        ensures { result ≡ scored number 0 }
    {
        Scored {
            number,
            increments: 0,
        }
    }
}

fn flat_scored(answer: Result<u64, ScoringError>) -> Scored
    ensures { result ≡ flat_scored answer }
{
    match answer {
        Ok(increments) => Scored {
            number: 0,
            increments,
        },
        Err(error) => Scored::refused(error.number()),
    }
}

// Scores the rows of a lent store among themselves, as `tavvinur_score`, by a lent table.
#[unsafe(no_mangle)]
pub extern "C" fn tavvinur_score_by_table(
    words: &[u64],
    marks: &[u8],
    memory: u64,
    log: u64,
    rows: u64,
    mean: u32,
    table: &mut [u32],
    scores: &mut [f64],
) -> Scored
    ensures result_after { scored_left scores.new table.new result
        ≡ table_score_left memory log rows mean words.now marks.now table.old scores.old }
    ensures always_scored { mean ≤ 1 → TableAlwaysScored memory log rows words.now marks.now table.old scores.old result }
    ensures scores_bounded { mean ≤ 1
        → TableScoresBounded memory log rows (mean_numbered mean) words.now marks.now table.old scores.old scores.new }
{
    if mean > MOST_MEAN {
        return Scored::refused(UNKNOWN_MEAN);
    }
    flat_scored(scoring::by_table::score_by_table(
        words,
        marks,
        memory,
        log,
        rows,
        mean_numbered(mean as u64),
        table,
        scores,
    ))
}

// Searches a program for bugs in a lent store, as `tavvinur_search`, by a lent table.
#[unsafe(no_mangle)]
pub extern "C" fn tavvinur_search_by_table(
    words: &mut [u64],
    marks: &mut [u8],
    table: &mut [u32],
    options: Options,
    log: u64,
    code_address: u64,
    code: &[u8],
    data_address: u64,
    data: &[u8],
    tape: &[u64],
) -> Answer
    ensures result_after { search_left_with words.new marks.new table.new result
        ≡ table_search_left options log (image code_address code.now data_address «data».now)
        tape.now words.old marks.old table.old }
    ensures demanded { options.mean ≤ 1
        → TableDemanded (options_of options) log (image code_address code.now data_address «data».now)
        tape.now words.old marks.old table.old }
    ensures ages_told { options.mean ≤ 1
        → TableAgesTold (options_of options) log (image code_address code.now data_address «data».now)
        tape.now words.old marks.old table.old }
{
    if options.mean > MOST_MEAN {
        return Answer::refused(UNKNOWN_MEAN);
    }
    let program = Program::new(code_address, code, data_address, data);
    let options = RaritySimulationOptions::from(options);
    search_answer(search::by_table::search_by_table(
        words, marks, table, options, log, program, tape,
    ))
}
