// Numbers 6 and 7: whether a program's two segments can be loaded.
ghost use Rattle.std.specs.Prelude.{◌≡◌};
ghost use Rattle.loader.specs.Lent.{program_seen};
ghost use Rattle.checks.specs.Segments.{segment_tests};
ghost use Rattle.checks.specs.Tests.{checked_by};

use crate::refusal::{Refusal, is_inside, is_whole, test};
use loader::Program;

// `memory` is in words.
#[tactic(auto, unfolding(crate::specs::Tests::checked_by))]
pub fn check_segments(memory: u64, program: Program) -> Result<(), Refusal>
    ensures { result ≡ checked_by (segment_tests memory (program_seen program.entry)) }
{
    let Program { code, data } = program;
    let code_length = code.bytes.len() as u64;
    let data_length = data.bytes.len() as u64;
    test(
        is_whole(code_length) && is_whole(data_length),
        Refusal::SegmentLength,
    )?;
    test(
        is_inside(memory, code.address, code_length)
            && is_inside(memory, data.address, data_length),
        Refusal::SegmentEnd,
    )
}
