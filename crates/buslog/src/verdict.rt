//! What a line of a captured bus log holds.
ghost use Rattle.std.specs.Prelude.{◌≡◌, ◌/◌, ◌%◌, ◌==◌, ◌&&◌, length, Some, None, Ok, IfOk};
ghost use Rattle.std.specs.Char.{is_ascii_hexdigit};
ghost use Rattle.std.specs.List.{list_all};
ghost use Rattle.record.specs.Codec.{decoded};
ghost use Rattle.buslog.specs.Verdicts.{of_decoded, of_digits, of_line};
ghost use Rattle.buslog.specs.declared.verdict.Verdict.TheVariants.{Other};

use crate::line;
use record::{Fault, Record};
use std::alloc::{AllocError, Global};
use std::fmt;

#[derive(Clone, Copy)]
pub enum Verdict {
    /// A well-formed record.
    Record(Record),
    /// Bytes that break a rule of records.
    Denied(Fault),
    /// A line without a payload.
    Other,
}

/// Whether all bytes are hexadecimal digits.
fn are_digits(text: &[u8]) -> bool
    ensures { result ≡ list_all is_ascii_hexdigit text.now }
{
    text.iter().all(|c| c.is_ascii_hexdigit())
}

/// Whether the text is an even number of hexadecimal digits.
fn is_hex(text: &[u8]) -> bool
    ensures { result ≡ (length text.now % 2 == 0 && list_all is_ascii_hexdigit text.now) }
{
    text.len() % 2 == 0 && are_digits(text)
}

impl Verdict {
    fn of_bytes(bytes: &[u8]) -> Verdict
        ensures { result ≡ of_decoded (decoded bytes.now) }
    {
        match Record::decode(bytes) {
            Ok(found) => Verdict::Record(found),
            Err(fault) => Verdict::Denied(fault),
        }
    }

    /// What digits hold, decoded into room for half as many bytes.
    fn of_hex(digits: &[u8], room: &mut [u8]) -> Verdict
        requires { length room.old ≡ length digits.now / 2 }
        ensures { result ≡ of_digits digits.now }
    {
        match hex::decode_to_slice(digits, room) {
            Ok(()) => Verdict::of_bytes(room),
            Err(_) => Verdict::Other,
        }
    }

    fn of_digits(heap: Global, digits: &[u8]) -> Result<Verdict, AllocError>
        ensures answer { IfOk result (λ v. v ≡ of_digits digits.now) }
        ensures other { of_digits digits.now ≡ Other → result ≡ Ok Other }
    {
        // the digits first: a line that holds no bytes asks for no memory, and cannot fail for want of it
        if !is_hex(digits) {
            return Ok(Verdict::Other);
        }
        let mut room = vec![in heap; 0; digits.len() / 2]?;
        Ok(Verdict::of_hex(digits, room.as_mut_slice()))
    }

    /// What the line holds; nothing is said of blank lines and comments. Only a line that holds bytes can fail for want of memory.
    pub fn of_line(heap: Global, line: &[u8]) -> Result<Option<Verdict>, AllocError>
        ensures answer { IfOk result (λ v. v ≡ of_line line.now) }
        ensures skipped { of_line line.now ≡ None → result ≡ Ok None }
        ensures other { of_line line.now ≡ Some Other → result ≡ Ok (Some Other) }
    {
        let line = line::without_return(line);
        if line::is_skipped(line) {
            return Ok(None);
        }
        match line::payload(line) {
            Some(digits) => Ok(Some(Verdict::of_digits(heap, digits)?)),
            None => Ok(Some(Verdict::Other)),
        }
    }
}

impl fmt::Display for Verdict {
    fn fmt<W: fmt::Write>(&self, f: &mut fmt::Formatter<W>) -> fmt::Result {
        match self {
            Verdict::Record(found) => write!(f, "{found}"),
            Verdict::Denied(fault) => write!(f, "denied {fault}"),
            Verdict::Other => f.write_str("not a record line"),
        }
    }
}
