//! Eight-byte reals (Stream Format Manual 6.0, data type 5).

ghost use Rattle.std.specs.Prelude.{◌≡◌, ℕ, ◌*◌, ◌^◌, ◌<◌, ◌≤◌, ◌↔◌, ℤ, pos, IsTrue, IfSome};
ghost use Rattle.gds_records.specs.Real.{HasSize, IsRightAngles, IsWholeNumber, exponent, is_negative, is_one, mantissa, quarter_of, quarter_turns};

/// A sign, an exponent to the base 16 in excess 64, and a mantissa of 56 bits after the point.
#[derive(Clone, Copy, Debug)]
struct Real {
    negative: bool,
    exponent: u8,
    mantissa: u64,
    ghost exponent_in_range: { exponent < 128 },
    ghost mantissa_in_range: { mantissa < 2 ^ 56 },
}

impl Real {
    fn from_bytes(bytes: [u8; 8]) -> Self
        ensures sign { result.negative ≡ is_negative bytes }
        ensures exponent { result.exponent ≡ exponent bytes }
        ensures mantissa { result.mantissa ≡ mantissa bytes }
    {
        Real {
            negative: bytes[0] >= 0x80,
            exponent: bytes[0] % 0x80,
            mantissa: u64::from_be_bytes(bytes) % (1 << 56),
        }
    }

    /// Whether the real is `n` or `-n`.
    fn has_size(&self, n: u64) -> bool
        requires { n < 4096 }
        ensures { IsTrue result ↔ HasSize self.now.mantissa self.now.exponent n }
    {
        match self.exponent {
            65..=78 => self.mantissa == n << (312 - 4 * u32::from(self.exponent)),
            79..=80 => self.mantissa << (4 * u32::from(self.exponent) - 312) == n,
            _ => self.mantissa == 0 && n == 0,
        }
    }
}

/// The angle in quarter turns, 0 to 3, where it is a multiple of 90 degrees from -360 to 360; else `None`. Any spelling of
/// a number is read.
pub fn quarter_turns(real: [u8; 8]) -> Option<u8>
    ensures value { result ≡ quarter_turns real }
    ensures turns { IfSome result (λ turns. (n : ℤ) × IsRightAngles real n × (turns ≡ quarter_of n)) }
    ensures all { (n : ℤ) → IsRightAngles real n → result ≡ Some (quarter_of n) }
{
    let real = Real::from_bytes(real);
    for quarters in 0..5u8 {
        if real.has_size(90 * u64::from(quarters)) {
            let turns = if real.negative {
                8 - quarters
            } else {
                quarters
            };
            return Some(turns % 4);
        }
    }
    None
}

/// Whether the real is 1, in any spelling.
pub fn is_one(real: [u8; 8]) -> bool
    ensures value { result ≡ is_one real }
    ensures exact { IsTrue result ↔ IsWholeNumber real (pos 1) }
{
    let real = Real::from_bytes(real);
    !real.negative && real.has_size(1)
}
