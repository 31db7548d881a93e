//! The example of the documentation.
use super::*;

#[test]
fn documented_lanes(rt: HostRuntime) {
    let made = there(&rt, lanes(&rt, rt.alloc(), 1).ok(), "lanes");
    use_lanes(&rt, made, 1);
}
