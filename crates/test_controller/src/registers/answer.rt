//! [`Answer`]: what a call of a port answers.

use can_frame::Message;
use can_node_rules::Request;
use sja_regs::RegFault;
use std::fmt;
use test_words::Bytes;

/// What a call of a port answers.
#[derive(Drop)]
pub enum Answer {
    /// It was done.
    Done,
    /// A value of a register.
    Value(u8),
    /// Whether something is so.
    Said(bool),
    /// There is none.
    Nothing,
    /// This is requested.
    Asked(Request),
    /// It is refused.
    Refused(RegFault),
    /// The row isn't written as rows are.
    Unread,
}

impl Answer {
    /// What a read answers.
    pub fn of_read(read: Result<u8, RegFault>) -> Answer {
        match read {
            Ok(value) => Answer::Value(value),
            Err(fault) => Answer::Refused(fault),
        }
    }

    /// What a write or a load answers.
    pub fn of_write(written: Result<(), RegFault>) -> Answer {
        match written {
            Ok(()) => Answer::Done,
            Err(fault) => Answer::Refused(fault),
        }
    }

    /// What a command answers.
    pub fn of_command(commanded: Result<Option<Request>, RegFault>) -> Answer {
        match commanded {
            Ok(Some(request)) => Answer::Asked(request),
            Ok(None) => Answer::Done,
            Err(fault) => Answer::Refused(fault),
        }
    }

    /// A counter that was written, if one was.
    pub fn of_counter(counter: Option<u8>) -> Answer {
        match counter {
            Some(value) => Answer::Value(value),
            None => Answer::Nothing,
        }
    }
}

impl fmt::Display for Answer {
    fn fmt<W: fmt::Write>(&self, f: &mut fmt::Formatter<W>) -> fmt::Result {
        match self {
            Answer::Done => write!(f, "ok"),
            Answer::Value(value) => write!(f, "{value:02x}"),
            Answer::Said(true) => write!(f, "yes"),
            Answer::Said(false) => write!(f, "no"),
            Answer::Nothing => write!(f, "none"),
            Answer::Asked(request) => asked(f, request),
            Answer::Refused(fault) => write!(f, "{fault:?}"),
            Answer::Unread => write!(f, "?"),
        }
    }
}

/// Writes a request: its message, and how it is tried.
fn asked<W: fmt::Write>(f: &mut fmt::Formatter<W>, request: &Request) -> fmt::Result {
    let message = Message::of(&request.frame);
    write!(f, "{}", Bytes(&message))?;
    if request.single_shot {
        write!(f, " once")?;
    }
    if request.self_receive {
        write!(f, " own")?;
    }
    Ok(())
}
