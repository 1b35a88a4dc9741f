// A list in its file, replayed line by line.
ghost use Rattle.std.specs.Prelude.{◌≤◌};

use crate::reader::read_line;
use crate::tally::{Judged, Tally};
use std::fs::File;
use std::rt::Files;

// The lines of a list, of at most N numbers each, judged and counted.
fn tally<const N: usize, R: Print, F: Fn(&[u64]) -> Judged>(rt: &R, file: &File, judge: F) -> Tally
    requires callable { F.IsAlwaysCallable judge }
    requires line_size { N ≤ 4096 }
{
    let mut numbers = [0; N];
    let mut tally = Tally::new();
    let mut at = 0;
    while let Some(line) = read_line(file, at, &mut numbers) {
        tally = tally.counted(rt, judge(&numbers[..line.count]), line.wrong);
        at = line.next;
    }
    tally
}

// Replays the list in the file `cases`, whose lines have at most N numbers each, and prints what came of it: the list's name first,
// and the parts that its cases have. What is printed no contract can say.
pub fn replay<const N: usize, R: Files<File = File> + Print, F: Fn(&[u64]) -> Judged>(
    rt: &R,
    name: &str,
    parts: &str,
    judge: F,
)
    requires callable { F.IsAlwaysCallable judge }
    requires line_size { N ≤ 4096 }
{
    let Ok(file) = File::open(rt, "cases") else {
        let _ = println!(rt; "cases: cannot be opened");
        return;
    };
    tally::<N, R, F>(rt, &file, judge).print(rt, name, parts);
}
