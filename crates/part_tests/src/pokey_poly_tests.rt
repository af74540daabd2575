ghost use Rattle.std.specs.Prelude.{◌^◌, ◌<◌};
ghost use Rattle.pokey_poly.specs.Shift.{width_of};

use pokey_poly::Poly;

/// The shifts after which a register is first as it was, if they are below 200,000, else 0.
fn cycle_length(poly: Poly, start: u32) -> u32
    requires { start < 2 ^ width_of poly }
{
    let mut r = start;
    for shifts in 1..200_000 {
        r = poly.shift(r);
        if r == start {
            return shifts;
        }
    }
    0
}

#[test]
fn each_register_goes_through_every_value_but_0(rt: HostRuntime) {
    let lengths = [
        cycle_length(Poly::Four, 0xf),
        cycle_length(Poly::Five, 0x1f),
        cycle_length(Poly::Nine, 0x1ff),
        cycle_length(Poly::Seventeen, 0x1ffff),
    ];
    assert_eq!(rt; lengths, [15, 31, 511, 131_071]);
}
