//! [`Bench`]: a controller's registers, and what the calls of a row have answered.

use super::answer::Answer;
use super::call::{CALLS, Call};
use super::controller::Controller;
use can_frame::{Frame, Message};
use sja_regs::BufferView;
use sja_regs::address::{BUFFER, BUFFER_END};
use std::alloc::Global;
use std::io;
use test_words::{address, byte, bytes, message_of, named, turn_of};

/// No message at the driver's end.
fn nothing_seen() -> BufferView {
    BufferView {
        first: None,
        count: 0,
    }
}

/// Two messages, the first of them with the identifier 123 and the data 11 22.
fn two_seen() -> Option<BufferView> {
    let frame = Frame::new(false, 0x123, false, 2, &[0x11, 0x22]).ok()?;
    Some(BufferView {
        first: Some(Message::of(&frame)),
        count: 2,
    })
}

/// A controller's registers, what is at the driver's end, and what was answered.
#[derive(Drop)]
pub struct Bench {
    alloc: Global,
    controller: Controller,
    seen: BufferView,
    text: String,
}

impl Bench {
    /// A port of version 1 after power-on.
    pub fn new(alloc: Global) -> Bench {
        Bench {
            alloc,
            controller: Controller::new(1),
            seen: nothing_seen(),
            text: String::new(alloc),
        }
    }

    /// What was answered, each answer behind a blank.
    pub fn render(self) -> String {
        self.text
    }

    /// Writes an answer.
    fn say(&mut self, answer: &Answer) -> io::Result<()> {
        let said = format!(in self.alloc; " {answer}")?;
        self.text.push_str(said.as_str())?;
        Ok(())
    }

    /// Does the call of these words, and writes what it answers.
    pub fn does(&mut self, words: &[&str]) -> io::Result<()> {
        let Some((name, words)) = words.split_first() else {
            return self.say(&Answer::Unread);
        };
        match named(&CALLS, name) {
            Some(Call::Read) => self.reads(words),
            Some(Call::Write) => self.writes(words),
            Some(Call::Command) => self.commands(words),
            Some(Call::Modes) => self.tells_modes(),
            Some(Call::Filter) => self.tells_filter(),
            Some(call) => self.does_one(call, words),
            None => self.say(&Answer::Unread),
        }
    }

    /// Does a call that answers once or not at all.
    fn does_one(&mut self, call: Call, words: &[&str]) -> io::Result<()> {
        if self.changes(call, words).is_some() {
            return Ok(());
        }
        let answer = self.answers(call, words).unwrap_or(Answer::Unread);
        self.say(&answer)
    }

    /// Does a call that answers nothing; none where it is another one.
    fn changes(&mut self, call: Call, words: &[&str]) -> Option<()> {
        match (call, words) {
            (Call::New, [version]) => self.controller = Controller::new(byte(version)?),
            (Call::Active, [version]) => {
                self.controller = Controller::new(byte(version)?);
                self.controller.leave_reset();
            }
            (Call::Leave, []) => self.controller.leave_reset(),
            (Call::Enter, []) => self.controller.enter_reset(),
            (Call::See, ["two"]) => self.seen = two_seen()?,
            (Call::See, ["none"]) => self.seen = nothing_seen(),
            (Call::Turn, words) => self.controller.bus_turn(&turn_of(words)?),
            _ => return None,
        }
        Some(())
    }

    /// What a call with one answer answers; none where it is another one.
    fn answers(&mut self, call: Call, words: &[&str]) -> Option<Answer> {
        match (call, words) {
            (Call::Mask, [addr, mask]) => self.masked(address(addr)?, byte(mask)?),
            (Call::Fill, words) => Some(self.fill(&bytes(words)?)),
            (Call::Load, words) => {
                let message = message_of(words)?;
                Some(Answer::of_write(self.controller.load(&message)))
            }
            (Call::Plan, [value]) => {
                let value = byte(value)?;
                Some(Answer::of_command(self.controller.plan_command(value)))
            }
            (Call::Abort, []) => Some(Answer::Said(self.controller.orders().abort)),
            (Call::Line, []) => Some(Answer::Said(self.controller.irq(&self.seen))),
            (Call::Tec, []) => Some(Answer::of_counter(self.controller.config().tec)),
            (Call::Rec, []) => Some(Answer::of_counter(self.controller.config().rec)),
            _ => None,
        }
    }

    /// What a read answers, and of it these bits alone.
    fn masked(&mut self, addr: u8, mask: u8) -> Option<Answer> {
        let value = self.controller.read(addr, &self.seen).ok()?;
        Some(Answer::Value(value & mask))
    }

    /// Writes the transmit buffer, and says which write is refused first, if one is.
    fn fill(&mut self, bytes: &[u8]) -> Answer {
        for (addr, byte) in (BUFFER..=BUFFER_END).zip(bytes) {
            if let Err(fault) = self.controller.write(addr, *byte) {
                return Answer::Refused(fault);
            }
        }
        Answer::Done
    }

    /// Reads at each of these addresses.
    fn reads(&mut self, addresses: &[&str]) -> io::Result<()> {
        for word in addresses {
            let answer = match address(word) {
                Some(addr) => Answer::of_read(self.controller.read(addr, &self.seen)),
                None => Answer::Unread,
            };
            self.say(&answer)?;
        }
        Ok(())
    }

    /// Writes at each of these addresses the value behind it.
    fn writes(&mut self, words: &[&str]) -> io::Result<()> {
        for pair in words.chunks(2) {
            let answer = self.write_register(pair).unwrap_or(Answer::Unread);
            self.say(&answer)?;
        }
        Ok(())
    }

    /// What a write of a value behind its address answers.
    fn write_register(&mut self, pair: &[&str]) -> Option<Answer> {
        let [addr, value] = pair else {
            return None;
        };
        Some(Answer::of_write(self.controller.write(address(addr)?, byte(value)?)))
    }

    /// Gives each of these commands.
    fn commands(&mut self, words: &[&str]) -> io::Result<()> {
        for word in words {
            let answer = match byte(word) {
                Some(value) => Answer::of_command(self.controller.command(value)),
                None => Answer::Unread,
            };
            self.say(&answer)?;
        }
        Ok(())
    }

    /// Writes of the modes with which the controller starts whether each is set.
    fn tells_modes(&mut self) -> io::Result<()> {
        let config = self.controller.config();
        self.say(&Answer::Said(config.filter.single))?;
        self.say(&Answer::Said(config.listen))?;
        self.say(&Answer::Said(config.self_test))
    }

    /// Writes the acceptance codes and masks with which it starts.
    fn tells_filter(&mut self) -> io::Result<()> {
        let filter = self.controller.config().filter;
        for byte in filter.acr.iter().chain(filter.amr.iter()) {
            self.say(&Answer::Value(*byte))?;
        }
        Ok(())
    }
}
