ghost use Rattle.std.specs.Prelude.{◌≡◌, ◌*◌, ◌^◌, ◌<◌, ◌≤◌, pos, neg_ℤ, ◌≤ℤ◌, ◌<ℤ◌};
ghost use Rattle.bit_words.specs.Residues.{residue};
ghost use Rattle.avg_decode.specs.Bits.{field, signed};

/// The number in `width` bits of a word, of which bit `low` is the lowest.
pub(crate) fn field_of(w: u16, low: u32, width: u32) -> u16
    requires place { low < 16 }
    requires wide { width < 16 }
    ensures value { result ≡ field w low width }
    ensures bound { result < 2 ^ width }
{
    w / (1 << low) % (1 << width)
}

/// The signed number in a field, whose highest bit has the value `sign`.
pub(crate) fn signed_of(n: u16, sign: u16) -> i16
    requires narrow { sign ≤ 4096 }
    requires in_range { n < 2 * sign }
    ensures value { result ≡ signed sign n }
    ensures low { neg_ℤ (pos sign) ≤ℤ result }
    ensures high { result <ℤ pos sign }
{
    if n < sign {
        n as i16
    } else {
        n as i16 - 2 * sign as i16
    }
}

/// The remainder from 0 up, which is how a field holds a signed number.
pub(crate) fn residue_of(z: i16, modulus: u16) -> u16
    requires some { 0 < modulus }
    requires narrow { modulus ≤ 8192 }
    ensures value { result ≡ residue modulus z }
    ensures bound { result < modulus }
{
    z.rem_euclid(modulus as i16) as u16
}
