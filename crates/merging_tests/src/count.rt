//! Kind 1, the count.
use merging::{Count, MergingKind};

#[test]
fn is_kind_1(rt: HostRuntime) {
    assert_eq!(rt; Count::NUMBER, 1);
}

#[test]
fn starts_at_0(rt: HostRuntime) {
    assert_eq!(rt; Count::first(), 0);
}

#[test]
fn admits_one_up_and_one_down(rt: HostRuntime) {
    assert!(rt; Count::admits(1));
    assert!(rt; Count::admits(-1));
    assert!(rt; !Count::admits(0));
    assert!(rt; !Count::admits(2));
    assert!(rt; !Count::admits(-2));
    assert!(rt; !Count::admits(i32::MIN));
}

#[test]
fn goes_below_0_and_back(rt: HostRuntime) {
    let below = Count::step(Count::first(), -1);
    assert_eq!(rt; below, -1);
    assert_eq!(rt; Count::step(below, 1), 0);
}

#[test]
fn wraps_at_both_ends(rt: HostRuntime) {
    assert_eq!(rt; Count::step(i32::MAX, 1), i32::MIN);
    assert_eq!(rt; Count::step(i32::MIN, -1), i32::MAX);
}
