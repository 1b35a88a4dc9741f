// Parts of a word, by the manual's x[hi:lo].
ghost use Rattle.std.specs.Prelude.{◌≡◌, ◌+◌, ◌≤◌, ◌<◌};
ghost use Rattle.riscu.specs.Formats.{bits};

// Bits HI down to LO of a word, but not all 32 of them.
#[tactic(auto, using(crate::proofs::Widths::width))]
pub(crate) fn bits<const HI: u32, const LO: u32>(word: u32) -> u32
    requires order { LO ≤ HI }
    requires within { HI < 32 }
    requires part { HI < LO + 31 }
    ensures { result ≡ bits word HI LO }
{
    (word >> LO) % (1 << (HI + 1 - LO))
}
