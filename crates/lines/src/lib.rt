// The printed lines of an answer. For the crate report, whose output has the room that is asked for.
#![tactic(auto)]

ghost use Rattle.std.specs.Prelude.{◌≡◌, ◌+◌, ◌*◌, ◌≤◌, length};
ghost use Rattle.lines.specs.Lines.{lines, answer_line, input_lines, told_lines, inputs_told};
ghost use Rattle.lines.specs.Lent.{told_seen};
ghost use Rattle.writing.specs.Outputs.{Put};
ghost use Rattle.writing.specs.Written.{written};

use answers::answer::Answer;
use put::{put_labelled, put_line};
use writing::Output;

mod put;

// What is told of a find: the round in which its line was begun, and its inputs.
#[derive(Clone, Copy)]
pub struct Told<'a> {
    pub born: u64,
    pub inputs: &'a [u64],
}

fn put_answer(out: &mut Output, answer: Answer)
    requires { out.old.written + 104 ≤ length out.old.bytes.now }
    ensures upper_bound { out.new.written ≤ out.old.written + 104 }
    ensures put { Put out.old (answer_line answer) out.new }
{
    put_labelled(out, b"answer ", answer.number);
    put_labelled(out, b" row ", answer.row);
    put_labelled(out, b" pc ", answer.pc);
    put_labelled(out, b" value ", answer.value);
    out.put(b"\n");
}

fn put_inputs(out: &mut Output, inputs: &[u64])
    requires { out.old.written + 27 * length inputs.now ≤ length out.old.bytes.now }
    ensures upper_bound { out.new.written ≤ out.old.written + 27 * length inputs.now }
    ensures put { Put out.old (input_lines inputs.now) out.new }
{
    for input in inputs {
        put_line(out, b"input ", *input);
    }
}

// Nothing, or how old the line of a find is and which inputs it has.
fn put_told(out: &mut Output, told: Option<Told>)
    requires { out.old.written + 26 + 27 * length (inputs_told (told_seen told)) ≤ length out.old.bytes.now }
    ensures upper_bound { out.new.written ≤ out.old.written + 26 + 27 * length (inputs_told (told_seen told.entry)) }
    ensures put { Put out.old (told_lines (told_seen told.entry)) out.new }
{
    if let Some(told) = told {
        put_line(out, b"born ", told.born);
        put_inputs(out, told.inputs);
    }
}

// Writes the lines of an answer and of what is told of it to the front of `out`, and answers how many bytes they have. For the crate report.
// An answer has at most 104 bytes on its line, a round 26, an input 27, the used count 26.
pub fn write_lines(answer: Answer, told: Option<Told>, out: &mut [u8]) -> usize
    requires { 156 + 27 * length (inputs_told (told_seen told)) ≤ length out.old }
    ensures value { result ≡ length (lines answer (told_seen told.entry)) }
    ensures out_after { out.new ≡ written (lines answer (told_seen told.entry)) out.old }
    ensures upper_bound { result ≤ length out.old }
{
    let mut output = Output::new(out);
    put_answer(&mut output, answer);
    put_told(&mut output, told);
    put_line(&mut output, b"used ", answer.used);
    output.written
}
