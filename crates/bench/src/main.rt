// The bench program: a sheet on standard input, the lines of its answer on standard output.
#![tactic(auto)]

ghost use Rattle.std.specs.Prelude.{◌≤◌, length};

use report::{MOST_PRINTED, SHEET_BUFFER, report};
use std::io::Read;

// Reads until the buffer is full or the input ends, and says how many bytes came. A failed read is taken for the end of the input.
fn read_full(input: &mut impl Read, buffer: &mut [u8]) -> usize
    ensures { result ≤ length buffer.new }
{
    let mut done = 0;
    while done < buffer.len() {
        let Ok(n @ 1..) = input.read(&mut buffer[done..]) else {
            break;
        };
        done += n;
    }
    done
}

fn main(rt: HostRuntime) {
    let mut sheet = [0u8; SHEET_BUFFER];
    let n = read_full(&mut rt.stdin(), &mut sheet);
    let mut out = [0u8; MOST_PRINTED];
    let m = report(&sheet, n, &mut out);
    // Whoever reads the answer sees by its last line whether it is whole.
    let _ = rt.write_all(&out[..m]);
}
