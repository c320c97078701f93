//! A worked row of the order.

use pfair_order::Key;
use pfair_weight::TaskName;
use std::cmp::Ordering;

#[test]
fn group_deadlines_count_if_both_b_bits_are_1(rt: HostRuntime) {
    let a = TaskName::from_bytes(b"a").expect(&rt, "a name");
    let b = TaskName::from_bytes(b"b").expect(&rt, "a name");
    for (bit, order) in [(0, Ordering::Less), (1, Ordering::Greater)] {
        let one = Key {
            d: 5,
            b: bit,
            group: 5,
            name: a,
        };
        let other = Key {
            d: 5,
            b: bit,
            group: 9,
            name: b,
        };
        assert!(&rt; one.cmp(&other) == order && other.cmp(&one) == order.reverse());
    }
    assert!(&rt; size_of::<Key>() == 40);
}
