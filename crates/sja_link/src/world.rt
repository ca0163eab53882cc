//! The world of one link.

ghost use Rattle.std.specs.Prelude.{◌≡◌, ◌≢◌, true, false, Ok};
ghost use Rattle.sja_link.specs.declared.event.Event.TheVariants.{Start, Put, Off, Get, Release};
ghost use Rattle.sja_link.specs.declared.event.Event.TheVariants.{Send, SendDone, Stop, Take};

use super::counts::{credit_at, credit_of, starts, stops, waits, went_off};
use super::event::Event;
use can_frame::{Message, OutOfMemory};
use can_node_rules::{Config, Request};
use sja_journal::{Down, RECEIVE_FIFO, Up};
use std::alloc::Global;
use std::marker::Model;

/// The pure core of one link: what its two ends did, and whether the next event may happen (this project's own rule).
/// Tests alone run one: it shows that events which keep to the rules keep the budget of a link.
///
/// Contracts see the four lists of the link, and the word "may send".
#[derive(Debug, Drop)]
pub struct World {
    put: Vec<Down>,
    got: usize,
    given: Vec<Up>,
    taken: usize,
    may_send: bool,
    free: u8,
    released: usize,
}

impl Model for World {
    ghost use Rattle.sja_link.specs.World.{WorldValue};

    ghost Value = { WorldValue };

    ghost use Rattle.sja_link.specs.Inside.Fields.{world_of, IsStored};

    ghost view = { λ w. world_of w.put.items w.got w.given.items w.taken w.may_send };

    ghost invariant = { λ w. IsStored w.put.items w.got w.given.items w.taken w.may_send w.free w.released };
}

impl World {
    ghost use Rattle.sja_link.specs.World.{new_world};
    ghost use Rattle.sja_link.specs.WorldEvents.{Steps};
    ghost use Rattle.sja_link.specs.Budget.{IsBudget};

    /// A new link: nothing was put, taken, got or given, and a request may be sent. It takes no memory yet.
    pub fn new(alloc: Global) -> World
        ensures { result ≡ new_world }
    {
        World {
            put: Vec::new(alloc),
            got: 0,
            given: Vec::new(alloc),
            taken: 0,
            may_send: true,
            free: RECEIVE_FIFO,
            released: 0,
        }
    }

    /// Does an event where it is allowed. The answer is whether it is; where it isn't nothing changes.
    ///
    /// Error: [`OutOfMemory`] where memory was refused; nothing changed.
    pub fn step(&mut self, event: Event) -> Result<bool, OutOfMemory>
        ensures steps { Steps self.old self.new event result }
        ensures budget { IsBudget self.new }
    {
        let answer = self.happen(event);
        // The fields of a world say that its budget holds.
        let _ = &self.free;
        answer
    }

    /// Does an event where it is allowed.
    fn happen(&mut self, event: Event) -> Result<bool, OutOfMemory>
        ensures { Steps self.old self.new event result }
    {
        match event {
            Event::Start(config) => self.start(config),
            Event::Put(message) => self.put(message),
            Event::Off => self.off(),
            Event::Get => Ok(self.get()),
            Event::Release => self.release(),
            Event::Send(request) => self.send(request),
            Event::SendDone => Ok(self.send_done()),
            Event::Stop => self.stop(),
            Event::Take => Ok(self.take()),
        }
    }

    /// The driver gives its start.
    fn start(&mut self, config: Config) -> Result<bool, OutOfMemory>
        ensures { Steps self.old self.new (Start config) result }
    {
        if !self.given.is_empty() {
            return Ok(false);
        }
        self.given.push(Up::Start(config))?;
        Ok(true)
    }

    /// The bus puts a message.
    fn put(&mut self, message: Message) -> Result<bool, OutOfMemory>
        ensures { Steps self.old self.new (Put message) result }
    {
        let bytes = message.len() as u8;
        let taken = &self.given[..self.taken];
        if !starts(taken) || stops(taken) || went_off(self.put.as_slice()) || bytes > self.free {
            return Ok(false);
        }
        self.put.push(Down::Message(message))?;
        self.free -= bytes;
        Ok(true)
    }

    /// The bus puts that the node went bus-off.
    fn off(&mut self) -> Result<bool, OutOfMemory>
        ensures { Steps self.old self.new Off result }
    {
        let taken = &self.given[..self.taken];
        if !starts(taken) || stops(taken) || went_off(self.put.as_slice()) {
            return Ok(false);
        }
        self.put.push(Down::Off)?;
        Ok(true)
    }

    /// The driver gets what comes next.
    fn get(&mut self) -> bool
        ensures { Steps self.old self.new Get (Ok result) }
    {
        if self.got >= self.put.len() || stops(self.given.as_slice()) {
            return false;
        }
        self.got += 1;
        true
    }

    /// The driver gives the credit of the first message that it got and didn't release.
    fn release(&mut self) -> Result<bool, OutOfMemory>
        ensures { Steps self.old self.new Release result }
    {
        let got = &self.put[..self.got];
        if went_off(got) || stops(self.given.as_slice()) {
            return Ok(false);
        }
        let Some(bytes) = credit_at(got, self.released) else {
            return Ok(false);
        };
        self.given.push(Up::Credit(bytes))?;
        self.released += 1;
        Ok(true)
    }

    /// The driver gives a request.
    fn send(&mut self, request: Request) -> Result<bool, OutOfMemory>
        ensures { Steps self.old self.new (Send request) result }
    {
        if !self.may_send || !starts(self.given.as_slice()) || stops(self.given.as_slice()) {
            return Ok(false);
        }
        self.given.push(Up::Send(request))?;
        self.may_send = false;
        Ok(true)
    }

    /// The transmit buffer is released.
    fn send_done(&mut self) -> bool
        ensures { Steps self.old self.new SendDone (Ok result) }
    {
        if self.may_send || waits(&self.given[self.taken..]) {
            return false;
        }
        self.may_send = true;
        true
    }

    /// The driver gives its stop.
    fn stop(&mut self) -> Result<bool, OutOfMemory>
        ensures { Steps self.old self.new Stop result }
    {
        if !starts(self.given.as_slice()) || stops(self.given.as_slice()) {
            return Ok(false);
        }
        self.given.push(Up::Stop)?;
        Ok(true)
    }

    /// The bus takes what comes next.
    fn take(&mut self) -> bool
        ensures { Steps self.old self.new Take (Ok result) }
    {
        if self.taken >= self.given.len() {
            return false;
        }
        self.free += credit_of(&self.given[self.taken]);
        self.taken += 1;
        true
    }
}
