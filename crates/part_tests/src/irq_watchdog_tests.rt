use irq_watchdog::{Divider, DividerUnit};

#[test]
fn the_3_khz_line_is_bit_8_of_the_phase(rt: HostRuntime) {
    // Clocks from power-on, and the line.
    let rows = [
        (0, false),
        (255, false),
        (256, true),
        (511, true),
        (512, false),
        (6143, true),
        (6144, false),
    ];
    for (clocks, line) in rows {
        let mut divider = Divider::new();
        divider.advance(clocks);
        assert_eq!(rt; divider.bit3k(), line);
    }
}
