//! Records in words.
use crate::kind::RecordKind;
use crate::message::Record;
use crate::row::Row;
use std::fmt;

impl fmt::Display for RecordKind {
    fn fmt<W: fmt::Write>(&self, f: &mut fmt::Formatter<W>) -> fmt::Result {
        f.write_str(match self {
            RecordKind::Prepare => "PREPARE",
            RecordKind::Vote => "VOTE",
            RecordKind::Abort => "ABORT",
            RecordKind::Propagate => "PROPAGATE",
            RecordKind::Ack => "ACK",
            RecordKind::Durable => "DURABLE",
            RecordKind::Row => "ROW",
        })
    }
}

/// ` start 0 0 0 0 0 0 0 0 update OBJECT ELEMENT OPERAND ..`
fn write_content<W: fmt::Write>(row: &Row, f: &mut fmt::Formatter<W>) -> fmt::Result {
    f.write_str(" start")?;
    for entry in &row.start.entries {
        write!(f, " {entry}")?;
    }
    for update in row.updates() {
        write!(
            f,
            " update {} {} {}",
            update.object, update.element, update.operand
        )?;
    }
    Ok(())
}

impl fmt::Display for Record {
    fn fmt<W: fmt::Write>(&self, f: &mut fmt::Formatter<W>) -> fmt::Result {
        let Record {
            kind,
            sender,
            receiver,
            detail,
            serial,
            number,
            ..
        } = self;
        match kind {
            RecordKind::Prepare => {
                write!(f, "{kind} {sender} to {receiver} serial {serial}")?;
                write_content(&Row::from(*self), f)
            }
            RecordKind::Vote => {
                let vote = if *detail == 1 { "yes" } else { "no" };
                write!(f, "{kind} {sender} to {receiver} serial {serial} {vote}")
            }
            RecordKind::Abort => write!(f, "{kind} {sender} to {receiver} serial {serial}"),
            RecordKind::Propagate => {
                write!(
                    f,
                    "{kind} {sender} to {receiver} serial {serial} number {number}"
                )?;
                write_content(&Row::from(*self), f)
            }
            RecordKind::Ack | RecordKind::Durable => {
                write!(f, "{kind} {sender} to {receiver} number {number}")
            }
            RecordKind::Row => {
                write!(f, "{kind} home {sender} serial {serial} number {number}")?;
                write_content(&Row::from(*self), f)
            }
        }
    }
}
