// The arithmetic of register with register, and with an immediate: 64-bit numbers that wrap.
ghost use Rattle.std.specs.Prelude.{◌≡◌};
ghost use Rattle.effects.specs.Arithmetic.{operated};

// The operation of an instruction (the Rust's closures Op).
#[derive(Clone, Copy)]
pub enum Op {
    Add,
    Sub,
    Mul,
    Sltu,
    Divu,
    Remu,
}

// The result of an operation; a zero divisor is the caller's to refuse, and gives what the definition gives.
#[tactic(auto, unfolding(crate::specs::Arithmetic::operated))]
pub(crate) fn operate(op: Op, a: u64, b: u64) -> u64
    ensures { result ≡ operated op a b }
{
    match op {
        Op::Add => a.wrapping_add(b),
        Op::Sub => a.wrapping_sub(b),
        Op::Mul => a.wrapping_mul(b),
        Op::Sltu => { if a < b { 1 } else { 0 } }
        Op::Divu => { if b == 0 { 0 } else { a / b } }
        Op::Remu => { if b == 0 { a } else { a % b } }
    }
}
