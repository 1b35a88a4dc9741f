// Numbers and labels, put into an output.
ghost use Rattle.std.specs.Prelude.{◌≡◌, ◌+◌, ◌≤◌, length};
ghost use Rattle.lines.specs.Lines.{decimal, labelled, number_line};
ghost use Rattle.writing.specs.Outputs.{Put};

use writing::Output;

fn put_decimal(out: &mut Output, n: u64)
    requires { out.old.written + 20 ≤ length out.old.bytes.now }
    ensures upper_bound { out.new.written ≤ out.old.written + 20 }
    ensures put { Put out.old (decimal n) out.new }
{
    let mut digits = [0u8; 20];
    let k = io::decimal(n, &mut digits);
    out.put(&digits[..k]);
}

pub(crate) fn put_labelled(out: &mut Output, label: &[u8], n: u64)
    requires { out.old.written + length label.now + 20 ≤ length out.old.bytes.now }
    ensures upper_bound { out.new.written ≤ out.old.written + length label.now + 20 }
    ensures put { Put out.old (labelled label.now n) out.new }
{
    out.put(label);
    put_decimal(out, n);
}

pub(crate) fn put_line(out: &mut Output, label: &[u8], n: u64)
    requires { out.old.written + length label.now + 21 ≤ length out.old.bytes.now }
    ensures upper_bound { out.new.written ≤ out.old.written + length label.now + 21 }
    ensures put { Put out.old (number_line label.now n) out.new }
{
    put_labelled(out, label, n);
    out.put(b"\n");
}
