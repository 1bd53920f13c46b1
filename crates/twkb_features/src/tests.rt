//! Vectors. Units are by the module `decimal` of Python 3.11, with ROUND_HALF_UP.
use crate::nearest_coordinate;

#[test]
fn short_decimals_are_their_nearest_coordinates(rt: HostRuntime) {
    let rows: [(i8, &[u8], Option<i64>); 12] = [
        (0, b"0.5", Some(1)),
        (0, b"-0.5", Some(-1)),
        (0, b"-0.4999", Some(0)),
        (0, b"2.5", Some(3)),
        (2, b"1.005", Some(101)),
        (5, b"0.01591499999999999999", Some(1591)),
        (5, b"0.015915", Some(1592)),
        (5, b"-122.40219", Some(-12240219)),
        (5, b"7", Some(700000)),
        (1, b"0.04999999999999999999", Some(0)),
        (7, b"122.4194155", Some(1224194155)),
        (3, b"-0", Some(0)),
    ];
    for (precision, text, units) in rows {
        assert!(rt;
            nearest_coordinate(precision, text) == units,
            "{units:?} at {precision}"
        );
    }
}

#[test]
fn long_decimals_and_exponents_are_exact(rt: HostRuntime) {
    let rows: [(i8, &[u8], Option<i64>); 16] = [
        (0, b"0e999999999999999999999", Some(0)),
        (0, b"1e-99999999999999999999999", Some(0)),
        (0, b"1e999999999", None),
        (-8, b"49999999.99999", Some(0)),
        (-8, b"5e7", Some(1)),
        (-8, b"-0.5E+8", Some(-1)),
        (0, b"4611686018427387903", Some(4611686018427387903)),
        (
            0,
            b"4611686018427387903.4999999999",
            Some(4611686018427387903),
        ),
        (0, b"4611686018427387904", None),
        (0, b"-4611686018427387904", Some(-4611686018427387904)),
        (0, b"-4611686018427387904.5", None),
        (7, b"461168601842.7387903", Some(4611686018427387903)),
        (
            -8,
            b"461168601842738790300000000",
            Some(4611686018427387903),
        ),
        (0, b"123456789012345678901234567890e-20", Some(1234567890)),
        (0, b"0.00000000000000000000000000000015e31", Some(2)),
        (1, b"999999999999999999.5", None),
    ];
    for (precision, text, units) in rows {
        assert!(rt;
            nearest_coordinate(precision, text) == units,
            "{units:?} at {precision}"
        );
    }
}
