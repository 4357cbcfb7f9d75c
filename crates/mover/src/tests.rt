//! Wishes at and beside the halves, at the greatest step and at the ends of the range.
use super::wish;
use opc_base::MoveRules;

const RULES: MoveRules = MoveRules {
    gain_num: 1,
    gain_den: 1,
    max_step: 4,
    max_in: 8,
    max_out: 16,
};

#[test]
fn wishes_are_the_nearest_whole_moves_in_range(rt: HostRuntime) {
    let rows = [
        (-9, 0, 1),
        (-8, 0, 0),
        (7, 1, 0),
        (8, 0, 0),
        (9, 0, -1),
        (-24, 0, 1),
        (-25, 0, 2),
        (-64, 0, 4),
        (256, 0, -4),
        (-64, 14, 2),
        (64, -8, 0),
    ];
    for (error, offset, delta) in rows {
        assert!(rt; error >= -256 && error <= 256, "{error}");
        assert!(rt; offset >= -8 && offset <= 16, "{offset}");
        assert_eq!(rt; wish(error, offset, &RULES), delta, "at {error}");
    }
}
