// Floats that a list holds as their bits.
ghost use Rattle.std.specs.Prelude.{◌≡◌, from_bits};
ghost use Rattle.std.specs.Float.{binary64};

// The float of some bits. Those of a NaN are all the one NaN.
pub fn float_of(bits: u64) -> f64
    ensures { result ≡ from_bits binary64 bits }
{
    std::num::f64_from_bits_with_nan(bits)
}
