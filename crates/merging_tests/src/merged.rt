//! One element after the updates of a list.
use merging::{Count, ElementId, HighestMark, MergingKind, merged};
use record::Update;

fn at(object: u16, element: u16) -> ElementId {
    ElementId { object, element }
}

fn update(object: u16, element: u16, operand: i32) -> Update {
    Update {
        object,
        element,
        operand,
    }
}

#[test]
fn keeps_the_value_where_nothing_is_updated(rt: HostRuntime) {
    assert_eq!(rt; merged::<Count>(7, &[], at(1, 2)), 7);
    assert_eq!(rt;
        merged::<HighestMark>(HighestMark::first(), &[], at(1, 2)),
        None
    );
}

#[test]
fn passes_other_objects_and_elements_by(rt: HostRuntime) {
    let updates = [
        update(1, 2, 1),
        update(2, 1, 10),
        update(1, 3, 100),
        update(4, 2, 1000),
        update(1, 2, 1),
    ];
    assert_eq!(rt; merged::<Count>(0, &updates, at(1, 2)), 2);
    assert_eq!(rt; merged::<Count>(0, &updates, at(2, 1)), 10);
    assert_eq!(rt; merged::<Count>(0, &updates, at(2, 2)), 0);
    assert_eq!(rt; merged::<HighestMark>(None, &updates, at(1, 2)), Some(1));
}

#[test]
fn goes_on_from_the_value(rt: HostRuntime) {
    let updates = [update(1, 2, 1), update(1, 2, 1)];
    assert_eq!(rt; merged::<Count>(i32::MAX, &updates, at(1, 2)), i32::MIN + 1);
    assert_eq!(rt; merged::<HighestMark>(Some(5), &updates, at(1, 2)), Some(5));
}

#[test]
fn ends_alike_in_either_order(rt: HostRuntime) {
    let these = [update(1, 2, 3), update(1, 2, -5)];
    let those = [update(1, 2, -5), update(1, 2, 3)];
    assert_eq!(rt; merged::<HighestMark>(None, &these, at(1, 2)), Some(3));
    assert_eq!(rt; merged::<HighestMark>(None, &those, at(1, 2)), Some(3));
    assert_eq!(rt; merged::<Count>(0, &these, at(1, 2)), -2);
    assert_eq!(rt; merged::<Count>(0, &those, at(1, 2)), -2);
}
