// The clock of the system.
use super::*;

// The first reading is after the beginning of 2020, in ticks of 100 ms since 1970, and the second is not before the
// first.
#[test]
fn the_clock_of_the_system_goes_on(rt: HostRuntime) {
    let mut clock = UnixClock::new(&rt);
    let then = clock.now();
    sees(&rt, then > 15_778_368_000, "the year 2020 is over");
    sees(&rt, clock.now() >= then, "the clock goes on");
}
