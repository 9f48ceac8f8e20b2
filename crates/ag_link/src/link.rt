//! A link from one replica to another.
ghost use Rattle.std.specs.Prelude.{◌≡◌, ◌≢◌, ◌-◌, ◌≤◌, ◌↔◌, ◌++◌, ◌∷◌, [], length, take, drop, slice_get, Some, Err, IsTrue, IsOk, IfOk, IfErr, OnOk, OnErr};
ghost use Rattle.ag_link.specs.declared.fault.LinkFault.TheVariants.{LinkFull, NoSuchMessage};
ghost use Rattle.ag_link.specs.Numbers.{HasMessage};

use crate::fault::LinkFault;
use ag_model::list::ListOf;
use std::alloc::Global;
use std::collections::VecDeque;
use std::marker::Model;

/// The bytes of a message.
pub type MessageBytes = ListOf<u8>;

/// The most messages that a link holds.
const MOST_MESSAGES: usize = 1024;

/// The messages in flight from one replica to another, the oldest first: at most 1,024.
///
/// Messages are numbered from 1, which is the oldest.
#[derive(Drop)]
pub struct Link {
    messages: VecDeque<MessageBytes>,
}

impl Model for Link {
    ghost use Rattle.std.specs.Prelude.{ℕ, ◌≤◌, List, length};

    ghost Value = { List (List ℕ) };

    ghost view = { λ l. l.messages.items };

    ghost invariant = { λ l. length l.messages.items ≤ 1024 };
}

impl Link {
    /// A link with no message.
    pub fn new(alloc: Global) -> Link
        ensures { result ≡ [] }
    {
        Link {
            messages: VecDeque::new(alloc),
        }
    }

    /// How many messages are in flight.
    pub fn len(&self) -> usize
        ensures value { result ≡ length self.now }
        ensures most { length self.now ≤ 1024 }
    {
        self.messages.len()
    }

    /// Whether no message is in flight.
    pub fn is_empty(&self) -> bool
        ensures { IsTrue result ↔ (length self.now ≡ 0) }
    {
        self.messages.is_empty()
    }

    /// Whether there is no room.
    pub fn is_full(&self) -> bool
        ensures { IsTrue result ↔ (length self.now ≡ 1024) }
    {
        self.messages.len() >= MOST_MESSAGES
    }

    /// Adds the newest message. A message that is refused is dropped.
    pub fn send(&mut self, message: MessageBytes) -> Result<(), LinkFault>
        ensures ok { OnOk result (self.new ≡ self.old ++ message ∷ []) }
        ensures err { OnErr result (self.new ≡ self.old) }
        ensures full { (result ≡ Err LinkFull) ↔ (length self.old ≡ 1024) }
        ensures never { result ≢ Err NoSuchMessage }
    {
        if self.is_full() {
            return Err(LinkFault::LinkFull);
        }
        self.messages.push_back(message)?;
        Ok(())
    }

    /// Where the message of this number lies.
    fn place(&self, k: u16) -> Result<usize, LinkFault>
        ensures ok { IfOk result (λ i. i ≡ k - 1) }
        ensures some { IsOk result ↔ HasMessage self.now k }
        ensures none { IfErr result (λ e. e ≡ NoSuchMessage) }
    {
        let k = usize::from(k);
        if k < 1 || k > self.messages.len() {
            return Err(LinkFault::NoSuchMessage);
        }
        Ok(k - 1)
    }

    /// Takes the message of this number out.
    pub fn take(&mut self, k: u16) -> Result<MessageBytes, LinkFault>
        ensures value { IfOk result (λ message. slice_get self.old (k - 1) ≡ Some message) }
        ensures rest { OnOk result (self.new ≡ take (k - 1) self.old ++ drop k self.old) }
        ensures err { OnErr result (self.new ≡ self.old) }
        ensures some { IsOk result ↔ HasMessage self.old k }
        ensures none { IfErr result (λ e. e ≡ NoSuchMessage) }
    {
        let place = self.place(k)?;
        self.messages.remove(place).ok_or(LinkFault::NoSuchMessage)
    }

    /// A copy of the message of this number, which stays in its place.
    pub fn copy(&self, k: u16) -> Result<MessageBytes, LinkFault>
        ensures value { IfOk result (λ message. slice_get self.now (k - 1) ≡ Some message) }
        ensures none { (result ≡ Err NoSuchMessage) ↔ (HasMessage self.now k → ⊥) }
        ensures never { result ≢ Err LinkFull }
    {
        let place = self.place(k)?;
        let message = self.messages.get(place).ok_or(LinkFault::NoSuchMessage)?;
        let copy = message.clone()?;
        Ok(copy)
    }

    /// Drops the message of this number.
    pub fn drop_at(&mut self, k: u16) -> Result<(), LinkFault>
        ensures rest { OnOk result (self.new ≡ take (k - 1) self.old ++ drop k self.old) }
        ensures err { OnErr result (self.new ≡ self.old) }
        ensures some { IsOk result ↔ HasMessage self.old k }
        ensures none { IfErr result (λ e. e ≡ NoSuchMessage) }
    {
        let _ = self.take(k)?;
        Ok(())
    }
}
