//! Worked windows of the longest period, a worked stepper, and the size of a name.

use pfair_weight::{Stepper, TaskName, Weight, b_bit, deadline, group_deadline, release};

// Release, deadline, b-bit and group deadline.
type Window = (u64, u64, u64, u64);

fn read(stepper: &Stepper) -> Window {
    (
        stepper.release(),
        stepper.deadline(),
        stepper.b_bit(),
        stepper.group_deadline(),
    )
}

#[test]
fn late_windows_of_the_longest_period(rt: HostRuntime) {
    let weight = Weight::new(1, 1_000_000_000).expect(&rt, "a weight");
    let index = 1_000_001;
    assert!(&rt; release(weight, index, 0) == 1_000_000_000_000_000);
    assert!(&rt; deadline(weight, index, 0) == 1_000_001_000_000_000);
    assert!(&rt; b_bit(weight, index) == 0 && group_deadline(weight, index, 0) == 0);
}

#[test]
fn a_name_has_16_bytes(rt: HostRuntime) {
    let longest = TaskName::from_bytes(b"abcdefghijklmnop").expect(&rt, "a name");
    assert!(&rt; longest.as_bytes() == b"abcdefghijklmnop".as_slice());
    assert!(&rt; size_of::<TaskName>() == 16);
}

#[test]
fn stepper_by_rows(rt: HostRuntime) {
    let weight = Weight::new(8, 11).expect(&rt, "a weight");
    let mut stepper = Stepper::new(weight, 0);
    stepper.advance();
    stepper.advance();
    assert!(&rt; stepper.index() == 3 && read(&stepper) == (2, 5, 1, 8));
    stepper.delay(4);
    assert!(&rt; stepper.theta() == 4 && read(&stepper) == (6, 9, 1, 12));
    stepper.advance();
    assert!(&rt; stepper.index() == 4 && read(&stepper) == (8, 10, 1, 12));
    let whole = Weight::new(1, 1).expect(&rt, "a weight");
    assert!(&rt; read(&Stepper::new(whole, 7)) == (7, 8, 0, 8));
}
