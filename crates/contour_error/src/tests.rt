//! Errors computed by hand from the intensities of a square's edges.
ghost use Rattle.std.specs.Prelude.{◌≡◌, ◌%◌, ◌≤◌, length};

use super::edge_error;
use std::process::Abort;

fn check(rt: &impl Abort, samples: &[i64], threshold: i64, error: i32)
    requires even { length samples.now % 2 ≡ 0 }
    requires some { 2 ≤ length samples.now }
    requires most { length samples.now ≤ 32 }
{
    assert_eq!(rt; edge_error(samples, threshold), error);
}

#[test]
fn errors_lie_on_the_line_between_two_samples(rt: HostRuntime) {
    check(&rt, &[81, 36, 9, 0], 37, -9);
    check(&rt, &[81, 81, 36, 9], 37, 7);
    check(&rt, &[81, 81, 81, 36], 37, 23);
    check(&rt, &[81, 36, 9, 0], 36, -8);
    check(&rt, &[81, 36, 9, 0], 9, 8);
    check(&rt, &[i64::MAX, i64::MIN], 0, -1);
}

#[test]
fn errors_end_at_the_last_sample(rt: HostRuntime) {
    check(&rt, &[81, 81, 81, 81], 37, 32);
    check(&rt, &[81, 81, 81, 36, 9, 0, 0, 0], 82, -64);
}
