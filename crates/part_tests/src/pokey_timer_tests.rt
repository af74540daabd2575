use pokey_timer::{clocks_to_underflow, prescaler_after, pulses_in, skip};

#[test]
fn a_prescaler_pulses_where_its_count_comes_to_the_period(rt: HostRuntime) {
    // The longest move is 2^49 = 28 * 20,105,355,479,332 + 16 ticks.
    let long = 562_949_953_421_312;
    assert_eq!(rt; pulses_in(0, 28, long), 20_105_355_479_332);
    assert_eq!(rt; prescaler_after(0, 28, long), 16);
    // Count, period, ticks; pulses, count.
    let rows = [
        (27, 28, 1, 1, 0),
        (27, 28, 28, 1, 27),
        (0, 28, 27, 0, 27),
        (0, 28, 28, 1, 0),
        (113, 114, 115, 2, 0),
        (5, 114, 0, 0, 5),
    ];
    for (count, period, n, pulses, after) in rows {
        assert_eq!(rt; pulses_in(count, period, n), pulses);
        assert_eq!(rt; prescaler_after(count, period, n), after);
    }
}

#[test]
fn an_underflow_comes_with_the_pulse_that_takes_the_last_one_left(rt: HostRuntime) {
    assert_eq!(rt; clocks_to_underflow(2, 27, 28), 29);
    assert_eq!(rt; clocks_to_underflow(1, 27, 28), 1);
    assert_eq!(rt; clocks_to_underflow(1, 0, 114), 114);
    assert_eq!(rt; clocks_to_underflow(65_542, 0, 114), 7_471_788);
}

#[test]
fn a_countdown_begins_its_period_again_at_each_underflow(rt: HostRuntime) {
    assert_eq!(rt; skip(1, 1, 562_949_953_421_312), (1, 562_949_953_421_312));
    assert_eq!(rt; skip(3, 4, 2), (1, 0));
    assert_eq!(rt; skip(3, 4, 3), (4, 1));
    assert_eq!(rt; skip(3, 4, 11), (4, 3));
    assert_eq!(rt; skip(65_542, 1, 65_541), (1, 0));
}
