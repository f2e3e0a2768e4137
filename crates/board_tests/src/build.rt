//! What a board may be built with.
use crate::play::{part, shown};
use board::Board;
use config::Config;
use keeper::{LogKeeper, RecordArea, RowTable};
use record::Row;
use std::test::Fail;

/// Whether no board can be built on this keeper. It is asked before the numbers, good ones or bad.
fn is_unfit<K: LogKeeper>(log: &K) -> bool {
    let unfit = Some((4, 1, 0));
    let config = part(0, 2);
    Board::check(log, &config, 1).err().map(shown) == unfit
        && Board::check(log, &config, 0).err().map(shown) == unfit
}

#[test]
fn an_unfit_keeper_is_denied(rt: HostRuntime) {
    assert!(rt; is_unfit(&RowTable::over(&mut [])));
    assert!(rt; is_unfit(&RecordArea::over(&mut [255; 65])));
}

#[test]
fn a_log_with_a_row_is_denied(rt: HostRuntime) -> Result<(), Fail> {
    let mut rows = [Row::ZERO; 2];
    let mut log = RowTable::over(&mut rows);
    let mut row = Row::ZERO;
    row.serial = 1;
    row.number = 1;
    row.count = 1;
    log.append(&row)?;
    assert!(rt; is_unfit(&log));
    Ok(())
}

/// What is shown of building a board from these numbers on a keeper that is fit.
fn fault(config: &Config, first_serial: u32) -> Option<(u8, u8, u32)> {
    Board::check(&RowTable::over(&mut [Row::ZERO; 1]), config, first_serial)
        .err()
        .map(shown)
}

#[test]
fn serials_begin_from_1(rt: HostRuntime) {
    assert_eq!(rt; fault(&part(0, 2), 0), Some((2, 1, 0)));
    assert_eq!(rt; fault(&part(0, 2), 1), None);
}

fn group(own: u8, boards: u8, losses: u8) -> Config {
    let mut config = part(own, boards);
    config.losses = losses;
    config
}

#[test]
fn a_group_has_2_to_8_boards_and_can_lose_some_and_not_all(rt: HostRuntime) {
    for (own, boards, losses) in [
        (0, 1, 1),
        (0, 9, 1),
        (0, 3, 0),
        (0, 3, 3),
        (3, 3, 1),
        (0, 0, 0),
    ] {
        assert_eq!(rt; fault(&group(own, boards, losses), 1), Some((2, 1, 0)));
    }
    for (own, boards, losses) in [(0, 2, 1), (1, 2, 1), (7, 8, 7), (0, 8, 1)] {
        assert_eq!(rt; fault(&group(own, boards, losses), 1), None);
    }
}

fn listing(listed: u8, preferred: u8) -> Config {
    let mut config = part(0, 2);
    config.listed = listed;
    config.containers[63].preferred = preferred;
    config
}

#[test]
fn containers_are_1_to_64_and_preferred_in_the_group(rt: HostRuntime) {
    for (listed, preferred) in [(0, 0), (65, 0), (255, 0), (64, 2), (64, 255)] {
        assert_eq!(rt; fault(&listing(listed, preferred), 1), Some((2, 1, 0)));
    }
    for (listed, preferred) in [(1, 0), (63, 2), (64, 1)] {
        assert_eq!(rt; fault(&listing(listed, preferred), 1), None);
    }
}
