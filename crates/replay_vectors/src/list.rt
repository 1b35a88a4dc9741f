// A list in its file, read in parts and judged line by line.
ghost use Rattle.std.specs.Prelude.{◌≤◌, length};

use crate::tally::{Tally, Verdict};
use replay_lists::reader::{MOST_BYTES, PART_BYTES, WRONG, read_part};
use std::fs::File;
use std::rt::Files;

// What was counted up to the end of a part of a list, and how many bytes of the part that took.
#[derive(Clone, Copy)]
struct Progress {
    tally: Tally,
    used: usize,
}

fn counted<F: Fn(&[u8]) -> Verdict>(rt: &impl Print, line: &[u8], judge: F, before: Tally) -> Tally
    requires { F.IsAlwaysCallable judge }
{
    match line {
        [WRONG, line @ ..] => before.counted(rt, judge(line), true),
        _ => before.counted(rt, judge(line), false),
    }
}

// Every line counts, whatever is in it: one that is no case of its list disagrees. A line that the text cuts off is left for
// the next part, which starts with it; one that is cut off there too is the file's last, or longer than any line of a list.
fn replay_lines<R: Print, F: Fn(&[u8]) -> Verdict>(
    rt: &R,
    text: &[u8],
    judge: F,
    before: Tally,
) -> Progress
    requires { F.IsAlwaysCallable judge }
    ensures { result.used ≤ length text.now }
{
    if text.is_empty() {
        return Progress {
            tally: before,
            used: 0,
        };
    }
    let Some(last) = text.iter().rposition(|byte| *byte == b'\n') else {
        return Progress {
            tally: counted(rt, text, judge, before),
            used: text.len(),
        };
    };
    let mut tally = before;
    for line in text[..last].split(|byte| *byte == b'\n') {
        tally = counted(rt, line, &judge, tally);
    }
    Progress {
        tally,
        used: last + 1,
    }
}

// Replays the list of this name. One that is missing is told, and has no lines.
pub(crate) fn replay<R: Files<File = File> + Print, F: Fn(&[u8]) -> Verdict>(
    rt: &R,
    name: &str,
    judge: F,
) -> Tally
    requires { F.IsAlwaysCallable judge }
{
    let mut tally = Tally::default();
    let Ok(file) = File::open(rt, name) else {
        let _ = println!(rt; "{name}: cannot be opened");
        return tally;
    };
    let mut at = 0;
    while at < MOST_BYTES {
        let room = &mut [0; PART_BYTES];
        let progress = replay_lines(rt, read_part(&file, at, room), &judge, tally);
        tally = progress.tally;
        if progress.used == 0 {
            break;
        }
        at += progress.used;
    }
    tally
}
