//! The messages in flight.
ghost use Rattle.std.specs.Prelude.{◌≡◌, ◌<◌, ◌≤◌, ◌+◌, ◌-◌, ◌++◌, ◌∷◌, [], length, take, drop, set, get_or, slice_get, IfSome, IfOk, OnOk, nat_le, replicate, false};
ghost use Rattle.std.specs.Option.{is_some};
ghost use Rattle.ag_built.specs.Built.{IsBuiltMessage};

use ag_link::{LinkFault, MessageBytes};
use ag_model::message::Message;
use ag_model::value::NoMemory;
use ag_wire::laws::spellings;
use ag_wire::{WireFault, decode, encode};
use std::alloc::Global;
use std::marker::Model;

/// The most messages that a link holds.
const MOST_MESSAGES: usize = 1024;

/// The messages in flight from one replica to another, the oldest first, as bytes.
#[derive(Drop)]
pub(crate) struct Link {
    messages: ag_link::Link,
}

impl Model for Link {
    ghost use Rattle.std.specs.Prelude.{List};
    ghost use Rattle.std.specs.List.{AllByRecursion};
    ghost use Rattle.ag_model.specs.declared.message.Message.{Message};
    ghost use Rattle.ag_group.specs.InFlight.{messages_of, IsInFlight};

    ghost Value = { List Message };

    ghost view = { λ l. messages_of l.messages };

    ghost invariant = { λ l. AllByRecursion IsInFlight l.messages };
}

impl Link {
    /// A link with no message.
    fn new(alloc: Global) -> Link
        ensures { result ≡ [] }
    {
        Link {
            messages: ag_link::Link::new(alloc),
        }
    }

    /// Whether it has no room.
    fn is_full(&self) -> bool
        ensures { result ≡ nat_le 1024 (length self.now) }
    {
        self.messages.len() >= MOST_MESSAGES
    }

    /// The message of a number, counted from the oldest, from 1. Each message in a link is read.
    fn message(&self, alloc: Global, number: u16) -> Result<Option<Message>, NoMemory>
        requires some { 0 < number }
        ensures found { IfOk result (λ found. found ≡ slice_get self.now (number - 1)) }
        ensures built { IfOk result (λ found. IfSome found IsBuiltMessage) }
    {
        spellings();
        let bytes = match self.messages.copy(number) {
            Ok(bytes) => bytes,
            Err(LinkFault::NoSuchMessage) => return Ok(None),
            Err(LinkFault::NoMemory) => return Err(NoMemory),
            Err(LinkFault::LinkFull) => unreachable!(),
        };
        match decode(alloc, bytes.as_slice()) {
            Ok(message) => Ok(Some(message)),
            Err(WireFault::NoMemory) => Err(NoMemory),
            Err(_) => unreachable!(),
        }
    }

    /// Whether a message has this number.
    fn has(&self, number: u16) -> bool
        requires some { 0 < number }
        ensures { result ≡ is_some (slice_get self.now (number - 1)) }
    {
        usize::from(number) <= self.messages.len()
    }

    /// Takes the message of a number out.
    fn remove(&mut self, number: u16)
        requires some { 0 < number }
        ensures { self.new ≡ take (number - 1) self.old ++ drop number self.old }
    {
        let _ = self.messages.drop_at(number);
    }

    /// Adds a message at the end.
    fn push(&mut self, alloc: Global, message: &Message) -> Result<(), NoMemory>
        requires built { IsBuiltMessage message.now }
        requires room { nat_le 1024 (length self.old) ≡ false }
        ensures { OnOk result (self.new ≡ self.old ++ message.now ∷ []) }
    {
        spellings();
        let mut bytes = Vec::new(alloc);
        encode(message, &mut bytes)?;
        match self.messages.send(MessageBytes::from_vec(bytes)) {
            Ok(()) => Ok(()),
            Err(LinkFault::NoMemory) => Err(NoMemory),
            Err(_) => unreachable!(),
        }
    }
}

/// The links from one replica to each.
#[derive(Drop)]
pub(crate) struct Links {
    links: Vec<Link>,
}

impl Model for Links {
    ghost use Rattle.std.specs.Prelude.{List};
    ghost use Rattle.ag_model.specs.declared.message.Message.{Message};

    ghost Value = { List (List Message) };

    ghost view = { λ l. l.links.items };
}

impl Links {
    /// So many links with no message.
    pub(crate) fn new(alloc: Global, count: usize) -> Result<Links, NoMemory>
        ensures { IfOk result (λ links. links ≡ replicate count []) }
    {
        let mut links = Vec::new(alloc);
        for _ in 0..count {
            links.push(Link::new(alloc))?;
        }
        Ok(Links { links })
    }

    /// Whether the link to m has no room.
    pub(crate) fn is_full(&self, m: u8) -> bool
        requires { m < length self.now }
        ensures { result ≡ nat_le 1024 (length (get_or self.now m [])) }
    {
        self.links[usize::from(m)].is_full()
    }

    /// The message of a number from 1 in the link to m.
    pub(crate) fn message(
        &self,
        alloc: Global,
        m: u8,
        number: u16,
    ) -> Result<Option<Message>, NoMemory>
        requires within { m < length self.now }
        requires some { 0 < number }
        ensures found { IfOk result (λ found. found ≡ slice_get (get_or self.now m []) (number - 1)) }
        ensures built { IfOk result (λ found. IfSome found IsBuiltMessage) }
    {
        self.links[usize::from(m)].message(alloc, number)
    }

    /// Whether a message in the link to m has this number.
    pub(crate) fn has(&self, m: u8, number: u16) -> bool
        requires within { m < length self.now }
        requires some { 0 < number }
        ensures { result ≡ is_some (slice_get (get_or self.now m []) (number - 1)) }
    {
        self.links[usize::from(m)].has(number)
    }

    /// Takes the message of a number out of the link to m.
    pub(crate) fn remove(&mut self, m: u8, number: u16)
        requires within { m < length self.old }
        requires some { 0 < number }
        ensures { self.new ≡ set self.old m (take (number - 1) (get_or self.old m []) ++ drop number (get_or self.old m [])) }
    {
        let link = &mut self.links[usize::from(m)];
        link.remove(number);
    }

    /// Adds a message at the end of the link to m.
    pub(crate) fn push(&mut self, alloc: Global, m: u8, message: &Message) -> Result<(), NoMemory>
        requires within { m < length self.old }
        requires built { IsBuiltMessage message.now }
        requires room { nat_le 1024 (length (get_or self.old m [])) ≡ false }
        ensures ok { OnOk result (self.new ≡ set self.old m (get_or self.old m [] ++ message.now ∷ [])) }
        ensures count { length self.new ≡ length self.old }
    {
        let link = &mut self.links[usize::from(m)];
        link.push(alloc, message)?;
        Ok(())
    }
}
