//! What a driver's log says.

use super::script::Query;
use sja_driver::LoggedDriver;
use sja_journal::Endless;
use std::alloc::{AllocError, Global};
use test_words::{AnswerText, Bytes};

/// The answers of the steps that were done, each behind a blank, and what is asked. All are done after 7 bits.
pub fn answers(alloc: Global, driver: &LoggedDriver, asked: Query) -> Result<String, AllocError> {
    let mut text = String::new(alloc);
    for one in driver.log().done().map_err(|_| AllocError)? {
        if one.bits != 7 {
            text.push_str(" after other bits")?;
        }
        let answer = format!(in alloc; " {}", AnswerText(&one.answer))?;
        text.push_str(answer.as_str())?;
    }
    if asked.released {
        push_released(alloc, &mut text, driver)?;
    }
    if asked.left {
        push_left(alloc, &mut text, driver)?;
    }
    if asked.counts {
        push_counts(alloc, &mut text, driver)?;
    }
    Ok(text)
}

/// Writes the messages that were released, each behind its activation.
fn push_released(
    alloc: Global,
    text: &mut String,
    driver: &LoggedDriver,
) -> Result<(), AllocError> {
    text.push_str(", released")?;
    for one in driver.log().released().map_err(|_| AllocError)? {
        let (activation, message) = (one.activation, Bytes(&one.message));
        let said = format!(in alloc; " {activation}: {message}")?;
        text.push_str(said.as_str())?;
    }
    Ok(())
}

/// Writes the messages that were left unread, those of each activation in brackets.
fn push_left(alloc: Global, text: &mut String, driver: &LoggedDriver) -> Result<(), AllocError> {
    text.push_str(", left")?;
    for ledger in driver.log().left().map_err(|_| AllocError)? {
        text.push_str(" (")?;
        for message in ledger.unread() {
            let said = format!(in alloc; "{}", Bytes(message))?;
            text.push_str(said.as_str())?;
        }
        text.push_str(")")?;
    }
    Ok(())
}

/// Writes the driver's activation, how many left a ledger, or `endless` where that can't be read, and how many messages
/// are unread.
fn push_counts(alloc: Global, text: &mut String, driver: &LoggedDriver) -> Result<(), AllocError> {
    let said = format!(in alloc; ", activation {}", driver.activation())?;
    text.push_str(said.as_str())?;
    match driver.log().left() {
        Ok(ledgers) => {
            let said = format!(in alloc; ", {} left", ledgers.len())?;
            text.push_str(said.as_str())?;
        }
        Err(Endless) => text.push_str(", endless")?,
    }
    let said = format!(in alloc; ", {} unread", driver.unread().len())?;
    text.push_str(said.as_str())
}
