ghost use Rattle.std.specs.Prelude.{◌≡◌, ◌<◌};
ghost use Rattle.bit_words.specs.Bits.{is_bit};

/// Whether bit `k` of a byte is 1; bit 0 is the lowest.
#[inline(always)]
pub fn is_set(byte: u8, k: u32) -> bool
    requires { k < 8 }
    ensures { result ≡ is_bit byte k }
{
    (byte >> k) & 1 == 1
}
