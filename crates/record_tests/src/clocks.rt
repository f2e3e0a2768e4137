//! Clocks: what they cover and reach, and how they are raised.
use record::{Clock, Denial, Fault};

const SOME: Clock = Clock {
    entries: [3, 0, 5, 0, 0, 0, 0, 65535],
};

#[test]
fn a_clock_covers_rows_up_to_its_entry(rt: HostRuntime) {
    assert!(rt; SOME.covers(0, 3) && !SOME.covers(0, 4) && SOME.covers(7, 65535));
    assert!(rt; SOME.covers(1, 0) && !SOME.covers(1, 1));
    assert!(rt; SOME.covers(8, 0) && !SOME.covers(8, 1) && SOME.entry(255) == 0);
}

#[test]
fn a_clock_reaches_those_that_are_nowhere_above_it(rt: HostRuntime) {
    assert!(rt; SOME.reaches(&SOME) && SOME.reaches(&Clock::ZERO) && !Clock::ZERO.reaches(&SOME));
    for board in 0..8u8 {
        let mut other = SOME;
        other.raise(board, SOME.entry(board).saturating_add(1));
        assert!(rt; other.reaches(&SOME));
        assert!(rt; SOME.reaches(&other) == (board == 7));
    }
}

#[test]
fn an_entry_is_raised_and_never_falls(rt: HostRuntime) {
    let mut clock = SOME;
    clock.raise(2, 4);
    clock.raise(8, 9);
    assert!(rt; clock == SOME);
    clock.raise(2, 6);
    assert!(rt; clock.entry(2) == 6 && clock.entry(0) == 3);
}

/// What a panel shows of a fault.
fn shown(fault: Fault) -> (u8, u8, u32) {
    (fault.layer(), fault.number(), fault.place())
}

#[test]
fn faults_bear_the_numbers_of_the_table(rt: HostRuntime) {
    assert!(rt; shown(Fault::Board(Denial::NotHere)) == (2, 14, 0));
    assert!(rt; shown(Fault::Keeper(Denial::LogFull)) == (4, 11, 0));
    assert!(rt; shown(Fault::Record(64)) == (3, 3, 64));
}
