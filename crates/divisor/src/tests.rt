use super::*;

#[test]
fn remainders_of_the_largest_numbers(rt: HostRuntime) {
    let cases: [(u64, u64, u64); 6] = [
        (0, 1, 0),
        (u64::MAX, 1, 0),
        (u64::MAX, 2, 1),
        (u64::MAX, 268_435_456, 268_435_455),
        (u64::MAX - 1, u64::MAX, u64::MAX - 1),
        (18_446_744_073_709_551_557, 1_000_003, 350_628),
    ];
    for (x, value, remainder) in cases {
        assert!(rt; value > 0);
        let divisor = Divisor::new(value);
        assert_eq!(rt; divisor.value(), value);
        assert_eq!(rt; divisor.remainder(x), remainder, "{x} by {value}");
    }
}
