//! A row by its transaction or by its number.
ghost use Rattle.std.specs.Prelude.{◌≡◌};
ghost use Rattle.queries.specs.Logs.{find_row, by_serial, by_number};

use crate::rows::rows_of;
use keeper::LogKeeper;
use record::{Row, TransactionId};

// Transactions and numbers are of two types, and each search is one chain: a search that takes its test has the longer contract.
fn has_id(row: &Row, id: TransactionId) -> bool
    ensures { result ≡ by_serial id.home id.serial row.now }
{
    row.id() == id
}

fn has_number(row: &Row, home: u8, number: u16) -> bool
    ensures { result ≡ by_number home number row.now }
{
    row.home == home && row.number == number
}

// The two searches stand apart from the public calls, which then need no proof file: an edit of these is refused by their contracts.
fn first_with_id<K: LogKeeper>(log: &K, id: TransactionId) -> Option<Row>
    ensures { result ≡ find_row (by_serial id.home id.serial) (K.rows log.now) }
{
    rows_of(log).find(|row| has_id(row, id))
}

fn first_with_number<K: LogKeeper>(log: &K, home: u8, number: u16) -> Option<Row>
    ensures { result ≡ find_row (by_number home number) (K.rows log.now) }
{
    rows_of(log).find(|row| has_number(row, home, number))
}

/// The row that a transaction was committed as.
pub fn row_by_serial<K: LogKeeper>(log: &K, id: TransactionId) -> Option<Row>
    ensures { result ≡ find_row (by_serial id.home id.serial) (K.rows log.now) }
{
    first_with_id(log, id)
}

/// The row of a home with this number.
pub fn row_by_number<K: LogKeeper>(log: &K, home: u8, number: u16) -> Option<Row>
    ensures { result ≡ find_row (by_number home number) (K.rows log.now) }
{
    first_with_number(log, home, number)
}
