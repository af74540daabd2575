use board_base::{Clocked, PokeyState, PowerOn, Trail};
use pokey_chip::{FastPokey, PlainPokey, SoundUnit};
use std::test::Fail;

#[test]
fn a_pokey_at_rest_is_moved_at_once(rt: HostRuntime) -> Result<(), Fail> {
    let mut trail = Trail::new(rt.alloc(), 6000)?;
    let mut unit = FastPokey::new();
    for k in 0..20_000_000u64 {
        unit.advance(6000 * k, 6000, &mut trail);
        trail.clear();
    }
    assert_eq!(rt;
        (unit.state(), unit.calls()),
        (PokeyState::power_on(), 20_000_000)
    );
    Ok(())
}

#[test]
fn a_request_of_a_channel_on_the_chip_clock_stands_after_a_clock(rt: HostRuntime) {
    let (mut plain, mut fast) = (PlainPokey::new(), FastPokey::new());
    assert_eq!(rt; (plain.quiet(), fast.quiet()), (None, None));
    plain.write(0x8, 0x40);
    plain.write(0xE, 1);
    fast.write(0x8, 0x40);
    fast.write(0xE, 1);
    assert_eq!(rt; (plain.quiet(), fast.quiet()), (Some(1), Some(1)));
}
