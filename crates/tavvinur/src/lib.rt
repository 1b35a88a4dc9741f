// Tavvinur for hosts in C and Rust: the proved entries as flat functions. Nothing is asked of the caller but that slices are what they say.
#![tactic(auto)]

ghost use Rattle.std.specs.Prelude.{◌≡◌, ◌≤◌, length};
ghost use Rattle.rows.specs.Rows.{row};
ghost use Rattle.loader.specs.Loading.{image};
ghost use Rattle.checks.specs.Refusals.{checked_number};
ghost use Rattle.executor.specs.Entries.{creation_checked, BornAtZero, BornKept, run_answer, run_entry};
ghost use Rattle.executor.specs.Resuming as runs;
ghost use Rattle.executor.specs.Resuming.{StopAndGoOn};
ghost use Rattle.options.specs.Defaults.{default_options};
ghost use Rattle.options.specs.Means.{mean_numbered};
ghost use Rattle.tavvinur.specs.Flat.{options_of, flat_of};
ghost use Rattle.scoring.specs.Entry.{ScoresBounded};
ghost use Rattle.search.specs.Entry.{Demanded, AgesTold};
ghost use Rattle.tavvinur.specs.Flat.{left, creation_left, run_left, search_left, scores_with, score_left, AlwaysScored};
ghost use Rattle.runner.specs.Entry.{one_run};
ghost use Rattle.runner.specs.Resuming.{ProgramGoesOn, RowGoesOn};
ghost use Rattle.tavvinur.specs.Printing.{flat_printed, printed_left, program_left, going_left, OneRun, numbered_as};

pub mod by_table;

use answers::answer::Answer;
use checks::refusal::checked_number;
use executor::run_answer;
use loader::Program;
use options::{RaritySimulationOptions, mean_number, mean_numbered};
use scoring::scoring_number;
use search::answer::search_answer;

// The options of a search; `mean` is 0 for arithmetic, 1 for harmonic.
#[repr(C)]
#[derive(Clone, Copy)]
pub struct Options {
    pub memory_size: u64,
    pub amount_of_states: u64,
    pub step_size: u32,
    pub selection: u32,
    pub iterations: u32,
    pub mean: u32,
    pub copy_init_ratio: f64,
}

// What the run of a label program answers: number, pc, value and the input words taken as in an answer, and the bytes of the output that were written.
#[repr(C)]
#[derive(Clone, Copy)]
pub struct Printed {
    pub number: u64,
    pub pc: u64,
    pub value: u64,
    pub used: u64,
    pub written: u64,
}

const MOST_MEAN: u32 = 1;

const UNKNOWN_MEAN: u64 = 53;

impl From<Options> for RaritySimulationOptions {
    ghost from_gives = { λ flat options. options ≡ options_of flat };

    fn from(options: Options) -> RaritySimulationOptions {
        RaritySimulationOptions {
            memory_size: options.memory_size,
            amount_of_states: options.amount_of_states,
            step_size: options.step_size,
            selection: options.selection,
            iterations: options.iterations,
            copy_init_ratio: options.copy_init_ratio,
            mean: mean_numbered(options.mean as u64),
        }
    }
}

impl From<RaritySimulationOptions> for Options {
    ghost from_gives = { λ options flat. flat ≡ flat_of options };

    fn from(options: RaritySimulationOptions) -> Options {
        Options {
            memory_size: options.memory_size,
            amount_of_states: options.amount_of_states,
            step_size: options.step_size,
            selection: options.selection,
            iterations: options.iterations,
            mean: mean_number(options.mean) as u32,
            copy_init_ratio: options.copy_init_ratio,
        }
    }
}

impl From<runner::Printed> for Printed {
    ghost from_gives = { λ printed flat. flat ≡ flat_printed (run_answer printed.answer) printed.written };

    fn from(printed: runner::Printed) -> Printed {
        let answer = run_answer(printed.answer);
        Printed {
            number: answer.number,
            pc: answer.pc,
            value: answer.value,
            used: answer.used,
            written: printed.written as u64,
        }
    }
}

// The default options: those that the Rust's command line starts from, but for the number of states.
#[unsafe(no_mangle)]
pub extern "C" fn tavvinur_default_options() -> Options
    ensures { result ≡ flat_of default_options }
{
    Options::from(RaritySimulationOptions::default())
}

// Makes a new executor of a program in a lent row; 0, or the number that refuses the call.
#[unsafe(no_mangle)]
pub extern "C" fn tavvinur_new_executor(
    words: &mut [u64],
    marks: &mut [u8],
    memory: u64,
    log: u64,
    code_address: u64,
    code: &[u8],
    data_address: u64,
    data: &[u8],
) -> u64
    ensures value { result ≡ checked_number (creation_checked memory log (image code_address code.now data_address «data».now)
        (row words.old marks.old)) }
    ensures row_after { row words.new marks.new
        ≡ creation_left memory log (image code_address code.now data_address «data».now)
        (row words.old marks.old) }
    ensures born { BornAtZero memory log (image code_address code.now data_address «data».now)
        (row words.old marks.old) (row words.new marks.new) }
{
    let program = Program::new(code_address, code, data_address, data);
    checked_number(executor::new_executor(words, marks, memory, log, program))
}

// Runs a lent row for at most `step` instructions more, on a lent tape from its front.
#[unsafe(no_mangle)]
pub extern "C" fn tavvinur_run(
    words: &mut [u64],
    marks: &mut [u8],
    memory: u64,
    log: u64,
    step: u32,
    tape: &[u64],
) -> Answer
    ensures result_after { left words.new marks.new result ≡ run_left memory log step tape.now words.old marks.old }
    ensures goes_on { StopAndGoOn memory log step tape.now (row words.old marks.old) (runs.numbered_as words.new marks.new result) }
    ensures used_in_bounds { result.used ≤ length tape.now }
    ensures born { BornKept (row words.old marks.old) (row words.new marks.new) }
{
    run_answer(executor::run(words, marks, memory, log, step, tape))
}

// Loads a label program into a lent row and runs it for at most `step` instructions, one word of the keyed order to each draw. What it writes
// goes to the front of the lent output.
#[unsafe(no_mangle)]
pub extern "C" fn tavvinur_run_program(
    words: &mut [u64],
    marks: &mut [u8],
    memory: u64,
    log: u64,
    step: u32,
    code_address: u64,
    code: &[u8],
    data_address: u64,
    data: &[u8],
    input: &[u64],
    output: &mut [u8],
) -> Printed
    ensures result_after { printed_left words.new marks.new output.new result
        ≡ program_left memory log step (image code_address code.now data_address «data».now)
        input.now words.old marks.old output.old }
    ensures one_run { OneRun (one_run memory log step (image code_address code.now data_address «data».now) input.now (row words.old marks.old))
        words.new marks.new result }
    ensures goes_on { ProgramGoesOn memory log step (image code_address code.now data_address «data».now)
        input.now (row words.old marks.old) output.old (numbered_as words.new marks.new output.new result) }
    ensures born { BornAtZero memory log (image code_address code.now data_address «data».now)
        (row words.old marks.old) (row words.new marks.new) }
    ensures used_in_bounds { result.used ≤ length input.now }
    ensures written_in_bounds { result.written ≤ length output.old }
{
    let program = Program::new(code_address, code, data_address, data);
    Printed::from(runner::run_program(words, marks, memory, log, step, program, input, output))
}

// Goes on with a lent row, which a call that answered 22 has left, for at most `step` instructions more, on what is left of the keyed order and of the
// output.
#[unsafe(no_mangle)]
pub extern "C" fn tavvinur_go_on(
    words: &mut [u64],
    marks: &mut [u8],
    memory: u64,
    log: u64,
    step: u32,
    input: &[u64],
    output: &mut [u8],
) -> Printed
    ensures result_after { printed_left words.new marks.new output.new result
        ≡ going_left memory log step input.now words.old marks.old output.old }
    ensures one_run { OneRun (run_entry memory log step input.now (row words.old marks.old)) words.new marks.new result }
    ensures goes_on { RowGoesOn memory log step input.now (row words.old marks.old) output.old
        (numbered_as words.new marks.new output.new result) }
    ensures born { BornKept (row words.old marks.old) (row words.new marks.new) }
    ensures used_in_bounds { result.used ≤ length input.now }
    ensures written_in_bounds { result.written ≤ length output.old }
{
    Printed::from(runner::go_on(words, marks, memory, log, step, input, output))
}

// Scores the rows of a lent store among themselves, one score a row; 0, or the number that tells why not.
#[unsafe(no_mangle)]
pub extern "C" fn tavvinur_score(
    words: &[u64],
    marks: &[u8],
    memory: u64,
    log: u64,
    rows: u64,
    mean: u32,
    scores: &mut [f64],
) -> u64
    ensures result_after { scores_with scores.new result
        ≡ score_left memory log rows mean words.now marks.now scores.old }
    ensures always_scored { mean ≤ 1 → AlwaysScored memory log rows words.now marks.now scores.old result }
    ensures scores_bounded { mean ≤ 1 → ScoresBounded memory log rows (mean_numbered mean) words.now marks.now scores.old
        scores.new }
{
    if mean > MOST_MEAN {
        return UNKNOWN_MEAN;
    }
    let answer = scoring::score_with_mean(
        words,
        marks,
        memory,
        log,
        rows,
        mean_numbered(mean as u64),
        scores,
    );
    scoring_number(answer)
}

// Searches a program for bugs in a lent store, round after round.
#[unsafe(no_mangle)]
pub extern "C" fn tavvinur_search(
    words: &mut [u64],
    marks: &mut [u8],
    options: Options,
    log: u64,
    code_address: u64,
    code: &[u8],
    data_address: u64,
    data: &[u8],
    tape: &[u64],
) -> Answer
    ensures result_after { left words.new marks.new result
        ≡ search_left options log (image code_address code.now data_address «data».now)
        tape.now words.old marks.old }
    ensures demanded { options.mean ≤ 1
        → Demanded (options_of options) log (image code_address code.now data_address «data».now)
        tape.now words.old marks.old }
    ensures ages_told { options.mean ≤ 1
        → AgesTold (options_of options) log (image code_address code.now data_address «data».now)
        tape.now words.old marks.old }
{
    if options.mean > MOST_MEAN {
        return Answer::refused(UNKNOWN_MEAN);
    }
    let program = Program::new(code_address, code, data_address, data);
    let options = RaritySimulationOptions::from(options);
    search_answer(search::search_for_bugs(words, marks, options, log, program, tape))
}
