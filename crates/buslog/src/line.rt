//! The lines of a captured bus log, and the payload's digits in them.
ghost use Rattle.std.specs.Prelude.{◌≡◌, ◌<◌, ◌≤◌, length, cond, Some, None, drop, nat_lt};
ghost use Rattle.std.specs.Char.{is_ascii_hexdigit};
ghost use Rattle.std.specs.List.{list_all, prefix_len};
ghost use Rattle.buslog.specs.Classes.{is_blank, is_time, is_name};
ghost use Rattle.buslog.specs.Lines.{text_of, body, skipped, past_one, past_time, past_name, past_id, candump, payload_of};

/// The line without the carriage return that some systems end it with.
pub(crate) fn without_return(line: &[u8]) -> &[u8]
    ensures { result.now ≡ body line.now }
{
    line.strip_suffix(b"\r").unwrap_or(line)
}

/// Whether all bytes are spaces, tabs and other characters that only move on.
fn is_blank(line: &[u8]) -> bool
    ensures { result ≡ list_all is_blank line.now }
{
    line.iter().all(|c| *c == b' ' || (9 <= *c && *c <= 13))
}

/// Whether the line is blank, or a comment.
pub(crate) fn is_skipped(line: &[u8]) -> bool
    ensures { result ≡ skipped line.now }
{
    is_blank(line) || line.starts_with(b"#")
}

/// How many bytes at the front are digits or points.
fn time_len(text: &[u8]) -> usize
    ensures is { result ≡ prefix_len is_time text.now }
    ensures within { result ≤ length text.now }
{
    text.iter()
        .take_while(|c| **c == b'.' || c.is_ascii_digit())
        .count()
}

/// How many bytes at the front are no spaces.
fn name_len(text: &[u8]) -> usize
    ensures is { result ≡ prefix_len is_name text.now }
    ensures within { result ≤ length text.now }
{
    text.iter().take_while(|c| **c != b' ').count()
}

/// How many bytes at the front are hexadecimal digits.
fn id_len(text: &[u8]) -> usize
    ensures is { result ≡ prefix_len is_ascii_hexdigit text.now }
    ensures within { result ≤ length text.now }
{
    text.iter().take_while(|c| c.is_ascii_hexdigit()).count()
}

/// The text behind its first `end` bytes; none if these are none.
fn behind(text: &[u8], end: usize) -> Option<&[u8]>
    requires { end ≤ length text.now }
    ensures { text_of result ≡ cond (nat_lt 0 end) (Some (drop end text.now)) None }
{
    if end > 0 { Some(&text[end..]) } else { None }
}

/// The text behind one hexadecimal digit.
fn past_digit(text: &[u8]) -> Option<&[u8]>
    ensures { text_of result ≡ past_one is_ascii_hexdigit text.now }
{
    match text {
        [digit, rest @ ..] if digit.is_ascii_hexdigit() => Some(rest),
        _ => None,
    }
}

/// `(TIME) `
fn past_time(text: &[u8]) -> Option<&[u8]>
    ensures { text_of result ≡ past_time text.now }
{
    let text = text.strip_prefix(b"(")?;
    let text = behind(text, time_len(text))?;
    text.strip_prefix(b") ")
}

/// `INTERFACE `
fn past_name(text: &[u8]) -> Option<&[u8]>
    ensures { text_of result ≡ past_name text.now }
{
    behind(text, name_len(text))?.strip_prefix(b" ")
}

/// `ID##F`
fn past_id(text: &[u8]) -> Option<&[u8]>
    ensures { text_of result ≡ past_id text.now }
{
    let text = behind(text, id_len(text))?;
    past_digit(text.strip_prefix(b"##")?)
}

/// The payload in a line that `candump -L` writes of a CAN FD frame.
fn candump_payload(line: &[u8]) -> Option<&[u8]>
    ensures { text_of result ≡ candump line.now }
{
    let text = past_time(line)?;
    let text = past_name(text)?;
    past_id(text)
}

/// The payload in a line: the line itself, unless it is of `candump`.
pub(crate) fn payload(line: &[u8]) -> Option<&[u8]>
    ensures { text_of result ≡ payload_of line.now }
{
    if line.starts_with(b"(") {
        candump_payload(line)
    } else {
        Some(line)
    }
}
