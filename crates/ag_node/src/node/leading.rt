//! What the events of a primary do.
ghost use Rattle.std.specs.Prelude.{◌≡◌, ◌+◌, ◌-◌, ◌≤◌, ◌==◌, ◌∷◌, [], IfOk, OnOk, IsErrOf, IfSome, IfNone, length, false, true, MatchOption, nat_eq};
ghost use Rattle.std.specs.List.{AllByRecursion};
ghost use Rattle.ag_model.specs.Sizes.{records_size as size_of_records, block_sectors, free_sectors};
ghost use Rattle.ag_model.specs.Blocks.{after_to, with_block};
ghost use Rattle.ag_model.specs.Proper.{IsProper};
ghost use Rattle.ag_rules.specs.Plan.{Block_write, refused};
ghost use Rattle.ag_rules.specs.Replica.{end, fallen, full_end, peer, records, with_peer};
ghost use Rattle.ag_rules.specs.Promotion.{log_check, is_spent};
ghost use Rattle.ag_rules.specs.SetEvent.{set_part, sets, pairs_pass, records_of_set};
ghost use Rattle.ag_rules.specs.Redo.{due_pages};
ghost use Rattle.ag_rules.specs.HardenEvent.{harden_part, hardens, hardened_one};
ghost use Rattle.ag_rules.specs.SendEvent.{send_part, block_to_send, block_message, with_sent};
ghost use Rattle.ag_rules.specs.AckMessage.{ack_message_part, known_peer};
ghost use Rattle.ag_built.specs.Built.{IsBuiltMessage, IsPair};
ghost use Rattle.ag_built.specs.Whole.{IsWhole};
ghost use Rattle.ag_node.specs.Out.{posting_of};
ghost use Rattle.ag_node.specs.Sites.{here_at};
ghost use Rattle.ag_node.specs.Parts.{pairs_set};
ghost use Rattle.ag_node.specs.Suffixes.{cut_part};
ghost use Rattle.ag_node.specs.Reaching.{part_reached};
ghost use Rattle.ag_outside.specs.Counts.{HasRisen};
ghost use Rattle.ag_kept.specs.Reaching.{how_far};
ghost use Rattle.ag_kept.specs.declared.reach.Reach.{Reach};
ghost use Rattle.ag_node.specs.Nodes.{IsRefusedBy};

use super::{Node, TERM, device_failed, down, not_primary, stopped};
use crate::fault::NodeFault;
use crate::listed::records_of_set;
use crate::published::Published;
use crate::room::{first_full, spend};
use crate::site::Site;
use ag_kept::Reach;
use ag_logstore::records_size;
use ag_model::answer::{Answer, Refusal};
use ag_model::event::{Pair, PairList, Suffix};
use ag_model::list::ListOf;
use ag_model::message::{Block, Body, Message};
use ag_model::value::NoMemory;
use ag_outside::disk::Disk;
use std::alloc::Global;
use std::mem;

/// The most bytes of records that the buffer holds.
const BUFFER_BYTES: u64 = 15_488;

impl<D: Disk> Node<D> {
    /// `set` at this replica: a whole transaction of these puts.
    #[tactic(auto, unfolding(ag_rules::specs::SetEvent::set_part))]
    pub fn set(&mut self, alloc: Global, site: &Site, pairs: &PairList) -> Result<Answer, NoMemory>
        requires pages { site.now.pages ≡ length self.old.replica.pages }
        requires some { 1 ≤ length pairs.now }
        requires few { length pairs.now ≤ 8 }
        requires values { AllByRecursion IsPair pairs.now }
        ensures answer { IfOk result (λ a. a ≡ (set_part (here_at site.now) self.old.replica pairs.now).answer) }
        ensures after { OnOk result (self.new.replica ≡ (set_part (here_at site.now) self.old.replica pairs.now).after) }
        ensures writes { OnOk result ((set_part (here_at site.now) self.old.replica pairs.now).writes ≡ []) }
        ensures pages { length self.new.replica.pages ≡ length self.old.replica.pages }
        ensures faults { self.new.faults ≡ self.old.faults }
    {
        if !self.is_up() {
            return Ok(down(site));
        }
        if !self.leads() {
            return Ok(not_primary(site));
        }
        if self.is_spent() {
            return Ok(Answer::No(Refusal::Spent));
        }
        let answer = self.set_pairs(alloc, site, pairs.as_slice())?;
        Ok(answer)
    }

    /// Whether no transaction can begin any more.
    fn is_spent(&self) -> bool
        ensures { result ≡ is_spent self.now.replica.leading.last_txn }
    {
        self.last_txn >= 9_223_372_036_854_775_808
    }

    /// The LSN of the record so many after the buffer's last.
    fn lsn_after(&self, more: u64) -> Result<u64, NoMemory>
        requires up { self.now.replica.up ≡ true }
        ensures { IfOk result (λ lsn. lsn ≡ full_end self.now.replica + more) }
    {
        let end = self.home.end().checked_add(self.buffer.len() as u64);
        let lsn = end.and_then(|end| end.checked_add(more));
        Ok(lsn.ok_or(NoMemory)?)
    }

    /// The transaction, where each pair has room on its page and the buffer has room for all records.
    fn set_pairs(&mut self, alloc: Global, site: &Site, pairs: &[Pair]) -> Result<Answer, NoMemory>
        requires pages { site.now.pages ≡ length self.old.replica.pages }
        requires up { self.old.replica.up ≡ true }
        requires leads { self.old.replica.leads ≡ true }
        requires some { 1 ≤ length pairs.now }
        requires few { length pairs.now ≤ 8 }
        requires values { AllByRecursion IsPair pairs.now }
        ensures answer { IfOk result (λ a. a ≡ (pairs_set site.now.pages (here_at site.now) self.old.replica pairs.now).answer) }
        ensures writes { OnOk result ((pairs_set site.now.pages (here_at site.now) self.old.replica pairs.now).writes ≡ []) }
        ensures after { OnOk result (self.new.replica ≡ (pairs_set site.now.pages (here_at site.now) self.old.replica pairs.now).after) }
        ensures pages { length self.new.replica.pages ≡ length self.old.replica.pages }
        ensures faults { self.new.faults ≡ self.old.faults }
    {
        if let Some(why) = first_full(site.pages, self.used.as_slice(), pairs) {
            return Ok(Answer::No(why));
        }
        let txn = self.last_txn.checked_add(1).ok_or(NoMemory)?;
        let mut new = records_of_set(alloc, site.pages, txn, pairs)?;
        let need = records_size(new.as_slice())?;
        let free = BUFFER_BYTES.saturating_sub(self.buffered);
        if free < need {
            return Ok(Answer::No(Refusal::BufferFull { need, free }));
        }
        let buffered = self.buffered.checked_add(need).ok_or(NoMemory)?;
        let lsn = self.lsn_after(new.len() as u64)?;
        self.buffer.append(&mut new)?;
        self.buffered = buffered;
        self.last_txn = txn;
        spend(site.pages, self.used.as_mut_slice(), pairs);
        Ok(Answer::Lsn { lsn })
    }

    /// `harden` at this replica: the buffer becomes a block. Its write may be stopped, or its write or its sync fail.
    pub fn harden(
        &mut self,
        alloc: Global,
        site: &Site,
        suffix: &Suffix,
    ) -> Result<Answer, NodeFault>
        requires pages { site.now.pages ≡ length self.old.replica.pages }
        requires proper { IsProper site.now.pages (harden_part (here_at site.now) self.old.replica).after.kept.log }
        ensures answer { IfOk result (λ a. a ≡ (cut_part site.now.pages site.now.number suffix.now self.old.replica (harden_part (here_at site.now) self.old.replica)).answer) }
        ensures after { OnOk result (self.new.replica ≡ (cut_part site.now.pages site.now.number suffix.now self.old.replica (harden_part (here_at site.now) self.old.replica)).after) }
        ensures pages { length self.new.replica.pages ≡ length self.old.replica.pages }
        ensures fault { IsErrOf result NodeFault.DiskFault → HasRisen self.old.faults self.new.faults }
    {
        let _ = &self.home;
        if let Some(why) = self.harden_refusal(site)? {
            return Ok(Answer::No(why));
        }
        let lsn = self.lsn_after(0)?;
        match self.harden_buffer(alloc, site.pages, suffix)? {
            Reach::End => Ok(Answer::Hardened { lsn }),
            Reach::Stop { whole } => Ok(stopped(alloc, whole)),
            Reach::Fault => Ok(device_failed(site)),
        }
    }

    /// Why the buffer isn't hardened, if it isn't.
    #[tactic(auto, unfolding(ag_rules::specs::HardenEvent::harden_part))]
    fn harden_refusal(&self, site: &Site) -> Result<Option<Refusal>, NoMemory>
        ensures part { IfOk result (λ w. MatchOption w (harden_part (here_at site.now) self.now.replica
            ≡ hardens site.now.pages self.now.replica (due_pages site.now.pages (hardened_one site.now.pages self.now.replica))) (λ why. harden_part (here_at site.now) self.now.replica
            ≡ refused why self.now.replica)) }
        ensures up { IfOk result (λ w. IfNone w (self.now.replica.up ≡ true)) }
        ensures leads { IfOk result (λ w. IfNone w (self.now.replica.leads ≡ true)) }
        ensures room { IfOk result (λ w. IfNone w (block_sectors self.now.replica.leading.buffer ≤ free_sectors self.now.replica.kept.log)) }
        ensures some { IfOk result (λ w. IfNone w ((length self.now.replica.leading.buffer == 0) ≡ false)) }
    {
        if !self.is_up() {
            return Ok(Some(Refusal::Down { node: site.number }));
        }
        if !self.leads() {
            return Ok(Some(Refusal::NotPrimary {
                node: site.number,
                primary: site.store.primary,
            }));
        }
        if self.is_buffer_empty() {
            return Ok(Some(Refusal::Nothing));
        }
        self.buffer_refusal()
    }

    fn is_buffer_empty(&self) -> bool
        ensures { result ≡ (length self.now.replica.leading.buffer == 0) }
    {
        self.buffer.is_empty()
    }

    /// Why the log has no room for the buffer, if it has none.
    fn buffer_refusal(&self) -> Result<Option<Refusal>, NoMemory>
        requires up { self.now.replica.up ≡ true }
        ensures { IfOk result (λ why. IsRefusedBy why (log_check self.now.replica (self.now.replica.leading.buffer ∷ []))) }
    {
        self.log_refusal(self.buffered)
    }

    /// Makes the buffer a block of the log and applies it to the pages, and tells how far it came. Unless it comes to its end
    /// the node is down.
    fn harden_buffer(
        &mut self,
        alloc: Global,
        pages: u16,
        suffix: &Suffix,
    ) -> Result<Reach, NodeFault>
        requires pages { pages ≡ length self.old.replica.pages }
        requires up { self.old.replica.up ≡ true }
        requires leads { self.old.replica.leads ≡ true }
        requires some { (length self.old.replica.leading.buffer == 0) ≡ false }
        requires room { block_sectors self.old.replica.leading.buffer ≤ free_sectors self.old.replica.kept.log }
        requires proper { IsProper pages (with_block self.old.replica.kept.log self.old.replica.leading.buffer) }
        ensures reach { IfOk result (λ r. r ≡ how_far suffix.now (block_sectors self.old.replica.leading.buffer) 2) }
        ensures after { IfOk result (λ r. self.new.replica
            ≡ (part_reached 0 self.old.replica (hardens pages self.old.replica (due_pages pages (hardened_one pages self.old.replica))) (Block_write self.old.replica.leading.buffer) r).after) }
        ensures pages { length self.new.replica.pages ≡ length self.old.replica.pages }
        ensures fault { IsErrOf result NodeFault.DiskFault → HasRisen self.old.faults self.new.faults }
    {
        let first = self.home.end().checked_add(1).ok_or(NoMemory)?;
        let block = Block {
            first,
            term: TERM,
            records: mem::replace(&mut self.buffer, ListOf::new(alloc)),
        };
        self.buffered = 0;
        match self.home.harden(&block, suffix)? {
            Reach::End => {
                let end = self.home.redo()?;
                self.published = Published::all_at(end);
                Ok(Reach::End)
            }
            Reach::Stop { whole } => {
                self.fall(alloc);
                Ok(Reach::Stop { whole })
            }
            Reach::Fault => {
                self.fall(alloc);
                Ok(Reach::Fault)
            }
        }
    }

    /// `send` at this replica: the next hardened block goes to replica m, whose link may be full.
    #[tactic(auto, unfolding(ag_rules::specs::SendEvent::send_part))]
    pub fn send(
        &mut self,
        alloc: Global,
        site: &Site,
        m: u8,
        full: bool,
    ) -> Result<(Answer, Option<Message>), NoMemory>
        ensures answer { IfOk result (λ x. x.0 ≡ (send_part (here_at site.now) self.old.replica m full).answer) }
        ensures out { IfOk result (λ x. posting_of m x.1 ≡ (send_part (here_at site.now) self.old.replica m full).out) }
        ensures built { IfOk result (λ x. IfSome x.1 IsBuiltMessage) }
        ensures after { OnOk result (self.new.replica ≡ (send_part (here_at site.now) self.old.replica m full).after) }
        ensures pages { length self.new.replica.pages ≡ length self.old.replica.pages }
        ensures faults { self.new.faults ≡ self.old.faults }
    {
        if !self.is_up() {
            return Ok((down(site), None));
        }
        if !self.leads() {
            return Ok((not_primary(site), None));
        }
        let Some(first) = self.next_to_send(m) else {
            return Ok((Answer::No(Refusal::NotConnected { node: m }), None));
        };
        let Some(last) = self.block_to_send(m, first) else {
            return Ok((Answer::No(Refusal::Nothing), None));
        };
        if full {
            return Ok((
                Answer::No(Refusal::LinkFull {
                    node: site.number,
                    to: m,
                }),
                None,
            ));
        }
        let message = self.send_block(alloc, m, first, last)?;
        Ok((Answer::Sent { lsn: last }, Some(message)))
    }

    /// The LSN that replica m is sent next, where it is connected.
    fn next_to_send(&self, m: u8) -> Option<u64>
        ensures { MatchOption result ((peer self.now.replica m).connected ≡ false) (λ first. ((peer self.now.replica m).connected ≡ true) × (first ≡ (peer self.now.replica m).next)) }
    {
        match self.peers.get(usize::from(m)) {
            Some(peer) if peer.connected => Some(peer.next),
            _ => None,
        }
    }

    /// The end of the block to send next, where it is hardened.
    fn block_to_send(&self, m: u8, first: u64) -> Option<u64>
        requires up { self.now.replica.up ≡ true }
        requires first { first ≡ (peer self.now.replica m).next }
        ensures end { result ≡ block_to_send self.now.replica m }
        ensures bounds { IfSome result (λ last. (1 ≤ first) × (first ≤ last) × (last ≤ end self.now.replica)) }
        ensures small { IfSome result (λ last. size_of_records (after_to (first - 1) last (records self.now.replica)) ≤ 15488) }
        ensures whole { IfSome result (λ last. IsWhole (after_to (first - 1) last (records self.now.replica))) }
    {
        self.home.block_from(first)
    }

    /// Takes the next block to a message to replica m.
    fn send_block(
        &mut self,
        alloc: Global,
        m: u8,
        first: u64,
        last: u64,
    ) -> Result<Message, NoMemory>
        requires up { self.old.replica.up ≡ true }
        requires connected { (peer self.old.replica m).connected ≡ true }
        requires first { first ≡ (peer self.old.replica m).next }
        requires bounds { (1 ≤ first) × (first ≤ last) × (last ≤ end self.old.replica) }
        requires small { size_of_records (after_to (first - 1) last (records self.old.replica)) ≤ 15488 }
        requires whole { IsWhole (after_to (first - 1) last (records self.old.replica)) }
        ensures message { IfOk result (λ message. message ≡ block_message self.old.replica (peer self.old.replica m).next last) }
        ensures built { IfOk result IsBuiltMessage }
        ensures after { OnOk result (self.new.replica ≡ with_sent self.old.replica m last) }
        ensures pages { length self.new.replica.pages ≡ length self.old.replica.pages }
        ensures faults { self.new.faults ≡ self.old.faults }
    {
        let block = Block {
            first,
            term: self.home.term_at(last),
            records: self.home.copy_block(alloc, first, last)?,
        };
        let next = last.checked_add(1).ok_or(NoMemory)?;
        let peer = &mut self.peers[usize::from(m)];
        peer.next = next;
        Ok(Message {
            term: TERM,
            body: Body::Block(block),
        })
    }

    /// An Ack comes from a replica: what is known of it grows.
    #[tactic(auto, unfolding(ag_rules::specs::AckMessage::ack_message_part))]
    pub fn acknowledge(&mut self, from: u8, term: u64, hardened: u64, low: u64) -> Answer
        ensures answer { result ≡ (ack_message_part from self.old.replica term hardened low).answer }
        ensures after { self.new.replica ≡ (ack_message_part from self.old.replica term hardened low).after }
        ensures pages { length self.new.replica.pages ≡ length self.old.replica.pages }
        ensures faults { self.new.faults ≡ self.old.faults }
    {
        if !self.leads() || term != TERM || self.next_to_send(from).is_none() {
            return Answer::No(Refusal::Nothing);
        }
        let lsn = self.know(from, hardened, low);
        Answer::Known { lsn }
    }

    /// Raises what is known of a connected replica.
    fn know(&mut self, from: u8, hardened: u64, low: u64) -> u64
        requires { (peer self.old.replica from).connected ≡ true }
        ensures lsn { result ≡ (known_peer (peer self.old.replica from) hardened low).hardened }
        ensures after { self.new.replica ≡ with_peer self.old.replica from (known_peer (peer self.old.replica from) hardened low) }
        ensures pages { length self.new.replica.pages ≡ length self.old.replica.pages }
        ensures faults { self.new.faults ≡ self.old.faults }
    {
        let peer = &mut self.peers[usize::from(from)];
        peer.hardened = peer.hardened.max(hardened);
        peer.low = peer.low.max(low);
        peer.hardened
    }
}
