// The example of the documentation.
use super::*;
use tora_frame::encode;

#[test]
fn documented_intake(rt: HostRuntime) {
    let mut end = open_end(&rt, rt.alloc(), 1, 2, 5);
    let mut other = open_end(&rt, rt.alloc(), 2, 1, 9);
    let hello = there(&rt, other.poll_transmit(0), "a HELLO");
    let mut tally = Tally::new();
    let bytes = encode(&hello);
    let seen = Intake::Seen(Verdict::Accepted);
    takes(&rt, &mut end, &mut tally, bytes.as_slice(), seen, "a HELLO");
    let bad = Intake::Bad(FrameError::Short);
    takes(&rt, &mut end, &mut tally, &[], bad, "no byte");
    let counted = (tally.of_verdict(Verdict::Accepted), tally.of_bad(1));
    same(&rt, &counted, &(1, 1), "the counts");
}
