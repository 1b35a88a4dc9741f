// The immediates of a word, put together from parts of it in 32-bit numbers, sign included, and widened once at the end.
ghost use Rattle.std.specs.Prelude.{◌≡◌, ◌-◌, ◌<◌, ◌≤◌, ◌^◌};
ghost use Rattle.riscu.specs.Formats.{signed, sign_extend, imm_i, imm_s, imm_b, imm_j, imm_u};
ghost use Rattle.riscu.specs.Narrow.{signed_in_32};

use crate::bits::bits;

// What the sign of a 32-bit number is worth in it.
const SIGN: u32 = 0x8000_0000;

// The upper half of a 64-bit number that is negative and fits 32 bits.
const UPPER_ONES: u64 = 0xFFFF_FFFF_0000_0000;

// A number of N bits, the highest its sign, as the 32-bit number of the same value.
#[tactic(auto, unfolding(crate::specs::Narrow::signed_in_32), using(crate::proofs::Widths::width))]
fn signed_in_32<const N: u32>(x: u32) -> u32
    requires some { 1 ≤ N }
    requires most { N ≤ 32 }
    requires within { x < 2 ^ N }
    ensures { result ≡ signed_in_32 (2 ^ (N - 1)) x }
{
    let sign: u32 = 1 << (N - 1);
    if x < sign {
        x
    } else {
        x - sign + (u32::MAX - (sign - 1))
    }
}

// A 32-bit number as the 64-bit number of the same value.
#[tactic(auto, unfolding(crate::specs::Formats::signed))]
fn widen(x: u32) -> u64
    ensures { result ≡ signed (2 ^ 31) x }
{
    if x < SIGN {
        x as u64
    } else {
        x as u64 + UPPER_ONES
    }
}

// A number of N bits, the highest its sign, as the 64-bit number of the same value.
#[tactic(auto, using(crate::proofs::Widths::widened))]
fn sign_extend<const N: u32>(x: u32) -> u64
    requires some { 1 ≤ N }
    requires most { N ≤ 32 }
    requires within { x < 2 ^ N }
    ensures { result ≡ sign_extend N x }
{
    widen(signed_in_32::<N>(x))
}

pub(crate) fn imm_i(word: u32) -> u64
    ensures { result ≡ imm_i word }
{
    sign_extend::<12>(bits::<31, 20>(word))
}

pub(crate) fn imm_s(word: u32) -> u64
    ensures { result ≡ imm_s word }
{
    sign_extend::<12>(bits::<31, 25>(word) * 32 + bits::<11, 7>(word))
}

pub(crate) fn imm_j(word: u32) -> u64
    ensures { result ≡ imm_j word }
{
    sign_extend::<21>(
        bits::<31, 31>(word) * 0x10_0000
            + bits::<19, 12>(word) * 0x1000
            + bits::<20, 20>(word) * 0x800
            + bits::<30, 21>(word) * 2,
    )
}

// lui's 20 bits, extended by zeros.
pub(crate) fn imm_u(word: u32) -> u64
    ensures { result ≡ imm_u word }
{
    (bits::<31, 12>(word) * 0x1000) as u64
}

pub(crate) fn imm_b(raw: u32) -> u64
    ensures { result ≡ imm_b raw }
{
    sign_extend::<13>(
        bits::<31, 31>(raw) * 0x1000
            + bits::<7, 7>(raw) * 0x800
            + bits::<30, 25>(raw) * 32
            + bits::<11, 8>(raw) * 2,
    )
}
