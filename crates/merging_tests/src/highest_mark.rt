//! Kind 2, the highest mark.
use merging::{HighestMark, MergingKind};

#[test]
fn is_kind_2(rt: HostRuntime) {
    assert_eq!(rt; HighestMark::NUMBER, 2);
}

#[test]
fn has_no_mark_at_first(rt: HostRuntime) {
    assert_eq!(rt; HighestMark::first(), None);
}

#[test]
fn admits_every_operand(rt: HostRuntime) {
    assert!(rt; HighestMark::admits(1));
    assert!(rt; HighestMark::admits(-1));
    assert!(rt; HighestMark::admits(0));
    assert!(rt; HighestMark::admits(2));
    assert!(rt; HighestMark::admits(i32::MIN));
}

#[test]
fn takes_any_operand_for_the_first_mark(rt: HostRuntime) {
    assert_eq!(rt; HighestMark::step(None, i32::MIN), Some(i32::MIN));
}

#[test]
fn keeps_the_larger_in_either_order(rt: HostRuntime) {
    let first = HighestMark::first();
    let up = HighestMark::step(HighestMark::step(first, -5), 3);
    let down = HighestMark::step(HighestMark::step(first, 3), -5);
    assert_eq!(rt; up, Some(3));
    assert_eq!(rt; down, Some(3));
}
