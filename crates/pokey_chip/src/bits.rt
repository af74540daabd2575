ghost use Rattle.std.specs.Prelude.{◌≡◌, ◌<◌, false};
ghost use Rattle.pokey_chip.specs.Tick.{with_bit};

/// Four bits with bit `k` made the given one.
#[tactic(auto, using(crate::proofs::BitLemmas::bit_writes))]
pub(crate) fn put_bit(bits: u8, k: u32, bit: bool) -> u8
    requires place { k < 4 }
    requires in_range { bits < 16 }
    ensures value { result ≡ with_bit bits k bit }
    ensures in_range { result < 16 }
{
    if bit {
        bits | (1 << k)
    } else {
        bits & !(1 << k)
    }
}

/// Two bits with bit `k` made the given one.
#[tactic(auto, using(crate::proofs::BitLemmas::bit_writes))]
pub(crate) fn put_pass(bits: u8, k: u32, bit: bool) -> u8
    requires place { k < 2 }
    requires in_range { bits < 4 }
    ensures value { result ≡ with_bit bits k bit }
    ensures in_range { result < 4 }
{
    put_bit(bits, k, bit)
}

/// Three bits with bit `k` made 0.
#[tactic(auto, using(crate::proofs::BitLemmas::bit_writes))]
pub(crate) fn clear_bit(bits: u8, k: u32) -> u8
    requires place { k < 3 }
    requires in_range { bits < 8 }
    ensures value { result ≡ with_bit bits k false }
    ensures in_range { result < 8 }
{
    put_bit(bits, k, false)
}
