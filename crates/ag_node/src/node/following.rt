//! What the events of a secondary do.
ghost use Rattle.std.specs.Prelude.{◌≡◌, ◌+◌, ◌≤◌, ◌<◌, ◌==◌, ◌∷◌, [], IfOk, OnOk, IsErrOf, IfSome, IfNone, MatchOption, length, false, true};
ghost use Rattle.ag_model.specs.Blocks.{with_block};
ghost use Rattle.ag_model.specs.Proper.{IsProper};
ghost use Rattle.ag_model.specs.Sizes.{block_sectors, free_sectors};
ghost use Rattle.ag_rules.specs.Replica.{end, front, stripe};
ghost use Rattle.ag_rules.specs.Promotion.{log_check};
ghost use Rattle.ag_rules.specs.Redo.{touched_up_to};
ghost use Rattle.ag_rules.specs.RedoEvent.{redo_part, redoes_touching};
ghost use Rattle.ag_rules.specs.ApplyEvent.{apply_part, applies_touching, next_of_stripe, touched_in_stripe};
ghost use Rattle.ag_rules.specs.RaiseEvent.{raise_part, raised};
ghost use Rattle.ag_rules.specs.ReadEvent.{read_part, reads_at, row_answer};
ghost use Rattle.ag_rules.specs.Messages.{ack_message};
ghost use Rattle.ag_rules.specs.BlockMessage.{block_part};
ghost use Rattle.ag_rules.specs.DeliverEvent.{leaves};
ghost use Rattle.ag_rules.specs.Plan.{sending, Block_write};
ghost use Rattle.ag_outside.specs.Counts.{HasRisen};
ghost use Rattle.ag_kept.specs.Reaching.{how_far};
ghost use Rattle.ag_node.specs.Reaching.{part_reached};
ghost use Rattle.ag_built.specs.Built.{IsBuiltMessage};
ghost use Rattle.ag_built.specs.Whole.{IsWhole};
ghost use Rattle.ag_record.specs.Spelling.{ArePayload};
ghost use Rattle.ag_wire.specs.Spelling.{IsBlock};
ghost use Rattle.ag_node.specs.Out.{posting_of};
ghost use Rattle.ag_node.specs.Sites.{here_at};
ghost use Rattle.ag_node.specs.Parts.{applies_next};
ghost use Rattle.ag_node.specs.Suffixes.{cut_part};
ghost use Rattle.ag_node.specs.Hardening.{hardens_block};
ghost use Rattle.ag_node.specs.Nodes.{IsRefusedBy};

use super::{Node, TERM, device_failed, down, stopped};
use crate::fault::NodeFault;
use crate::published::Published;
use crate::site::Site;
use ag_kept::Reach;
use ag_logstore::records_size;
use ag_model::answer::{Answer, Refusal};
use ag_model::config::Token;
use ag_model::event::Suffix;
use ag_model::message::{Block, Body, Message};
use ag_model::record::Record;
use ag_model::value::{NoMemory, Row};
use ag_outside::disk::Disk;
use ag_store::ReadFault;
use std::alloc::Global;

impl<D: Disk> Node<D> {
    /// `redo` at this replica: every stripe is applied to the end and raised.
    #[tactic(auto, unfolding(ag_rules::specs::RedoEvent::redo_part))]
    pub fn redo(&mut self, site: &Site) -> Result<Answer, NodeFault>
        requires pages { site.now.pages ≡ length self.old.replica.pages }
        ensures answer { IfOk result (λ a. a ≡ (redo_part (here_at site.now) self.old.replica).answer) }
        ensures after { OnOk result (self.new.replica ≡ (redo_part (here_at site.now) self.old.replica).after) }
        ensures writes { OnOk result ((redo_part (here_at site.now) self.old.replica).writes ≡ []) }
        ensures pages { length self.new.replica.pages ≡ length self.old.replica.pages }
        ensures fault { IsErrOf result NodeFault.DiskFault → HasRisen self.old.faults self.new.faults }
    {
        if !self.is_up() {
            return Ok(down(site));
        }
        if self.leads() {
            return Ok(Answer::No(Refusal::NotSecondary { node: site.number }));
        }
        let lsn = self.redo_all(site.pages)?;
        Ok(Answer::Front { lsn })
    }

    /// Applies the log to the pages, to its end, and publishes all.
    fn redo_all(&mut self, pages: u16) -> Result<u64, NodeFault>
        requires pages { pages ≡ length self.old.replica.pages }
        requires up { self.old.replica.up ≡ true }
        requires follows { self.old.replica.leads ≡ false }
        ensures lsn { IfOk result (λ lsn. lsn ≡ end self.old.replica) }
        ensures after { OnOk result (self.new.replica ≡ (redoes_touching pages self.old.replica (touched_up_to pages (end self.old.replica) self.old.replica)).after) }
        ensures writes { OnOk result ((redoes_touching pages self.old.replica (touched_up_to pages (end self.old.replica) self.old.replica)).writes ≡ []) }
        ensures pages { length self.new.replica.pages ≡ length self.old.replica.pages }
        ensures fault { IsErrOf result NodeFault.DiskFault → HasRisen self.old.faults self.new.faults }
    {
        let lsn = self.home.redo()?;
        self.published = Published::all_at(lsn);
        Ok(lsn)
    }

    /// `apply` at this replica: a stripe goes through the next block of the log.
    #[tactic(auto, unfolding(ag_rules::specs::ApplyEvent::apply_part))]
    pub fn apply(&mut self, site: &Site, stripe: u8) -> Result<Answer, NodeFault>
        requires pages { site.now.pages ≡ length self.old.replica.pages }
        requires stripe { stripe < 16 }
        ensures answer { IfOk result (λ a. a ≡ (apply_part (here_at site.now) self.old.replica stripe).answer) }
        ensures after { OnOk result (self.new.replica ≡ (apply_part (here_at site.now) self.old.replica stripe).after) }
        ensures writes { OnOk result ((apply_part (here_at site.now) self.old.replica stripe).writes ≡ []) }
        ensures pages { length self.new.replica.pages ≡ length self.old.replica.pages }
        ensures fault { IsErrOf result NodeFault.DiskFault → HasRisen self.old.faults self.new.faults }
    {
        if !self.is_up() {
            return Ok(down(site));
        }
        if self.leads() {
            return Ok(Answer::No(Refusal::NotSecondary { node: site.number }));
        }
        if self.applied(stripe) == self.end() {
            return Ok(Answer::No(Refusal::Nothing));
        }
        let lsn = self.apply_next(site.pages, stripe)?;
        Ok(Answer::Applied { lsn })
    }

    /// The LSN to which a stripe has redone.
    fn applied(&self, x: u8) -> u64
        requires up { self.now.replica.up ≡ true }
        requires stripe { x < 16 }
        ensures { result ≡ (stripe self.now.replica x).applied }
    {
        self.home.applied(x)
    }

    /// Applies the next block of the log to a stripe.
    fn apply_next(&mut self, pages: u16, x: u8) -> Result<u64, NodeFault>
        requires pages { pages ≡ length self.old.replica.pages }
        requires up { self.old.replica.up ≡ true }
        requires stripe { x < 16 }
        requires follows { self.old.replica.leads ≡ false }
        ensures lsn { IfOk result (λ lsn. lsn ≡ next_of_stripe self.old.replica x) }
        ensures after { OnOk result (self.new.replica ≡ (applies_next pages self.old.replica x).after) }
        ensures writes { OnOk result ((applies_next pages self.old.replica x).writes ≡ []) }
        ensures pages { length self.new.replica.pages ≡ length self.old.replica.pages }
        ensures fault { IsErrOf result NodeFault.DiskFault → HasRisen self.old.faults self.new.faults }
    {
        let lsn = self.home.apply_next(x)?;
        Ok(lsn)
    }

    /// `raise` at this replica: a stripe publishes what it has redone.
    #[tactic(auto, unfolding(ag_rules::specs::RaiseEvent::raise_part))]
    pub fn raise(&mut self, site: &Site, stripe: u8) -> Answer
        requires stripe { stripe < 16 }
        ensures answer { result ≡ (raise_part (here_at site.now) self.old.replica stripe).answer }
        ensures after { self.new.replica ≡ (raise_part (here_at site.now) self.old.replica stripe).after }
        ensures writes { (raise_part (here_at site.now) self.old.replica stripe).writes ≡ [] }
        ensures pages { length self.new.replica.pages ≡ length self.old.replica.pages }
        ensures faults { self.new.faults ≡ self.old.faults }
    {
        if !self.is_up() {
            return down(site);
        }
        if self.leads() {
            return Answer::No(Refusal::NotSecondary { node: site.number });
        }
        if self.is_raised(stripe) {
            return Answer::No(Refusal::Nothing);
        }
        let lsn = self.raise_stripe(stripe);
        Answer::Raised { lsn }
    }

    /// Whether a stripe has published all that it has redone.
    fn is_raised(&self, x: u8) -> bool
        requires up { self.now.replica.up ≡ true }
        requires stripe { x < 16 }
        ensures { result ≡ ((stripe self.now.replica x).published == (stripe self.now.replica x).applied) }
    {
        self.published.of(x) == self.home.applied(x)
    }

    /// Publishes what a stripe has redone.
    fn raise_stripe(&mut self, x: u8) -> u64
        requires up { self.old.replica.up ≡ true }
        requires stripe { x < 16 }
        requires follows { self.old.replica.leads ≡ false }
        ensures lsn { result ≡ (stripe self.old.replica x).applied }
        ensures after { self.new.replica ≡ raised self.old.replica x }
        ensures pages { length self.new.replica.pages ≡ length self.old.replica.pages }
        ensures faults { self.new.faults ≡ self.old.faults }
    {
        let lsn = self.home.applied(x);
        self.published.raise(x, lsn);
        lsn
    }

    /// `read` at this replica, for a session with this token.
    #[tactic(auto, unfolding(ag_rules::specs::ReadEvent::read_part))]
    pub fn read(&mut self, site: &Site, token: &Token, key: u32) -> Result<Answer, NodeFault>
        requires pages { site.now.pages ≡ length self.old.replica.pages }
        ensures answer { IfOk result (λ a. a ≡ (read_part (here_at site.now) self.old.replica token.now key).answer) }
        ensures after { OnOk result (self.new.replica ≡ (read_part (here_at site.now) self.old.replica token.now key).after) }
        ensures left { OnOk result ((read_part (here_at site.now) self.old.replica token.now key).after ≡ self.old.replica) }
        ensures writes { OnOk result ((read_part (here_at site.now) self.old.replica token.now key).writes ≡ []) }
        ensures pages { length self.new.replica.pages ≡ length self.old.replica.pages }
        ensures fault { IsErrOf result NodeFault.DiskFault → HasRisen self.old.faults self.new.faults }
    {
        if !self.is_up() {
            return Ok(down(site));
        }
        if self.leads() {
            return Ok(Answer::No(Refusal::NotSecondary { node: site.number }));
        }
        if TERM < token.term {
            return Ok(Answer::No(Refusal::OldTerm {
                term: TERM,
                seen: token.term,
            }));
        }
        let front = self.front();
        if TERM == token.term && front < token.lsn {
            return Ok(Answer::No(Refusal::Behind {
                front,
                seen: token.lsn,
            }));
        }
        let answer = self.row_at_front(site, key)?;
        Ok(answer)
    }

    /// The row of a key at the front, where its page allows it.
    fn row_at_front(&mut self, site: &Site, key: u32) -> Result<Answer, NodeFault>
        requires up { self.old.replica.up ≡ true }
        requires pages { site.now.pages ≡ length self.old.replica.pages }
        ensures answer { IfOk result (λ a. a ≡ (reads_at (here_at site.now) self.old.replica (front self.old.replica) key).answer) }
        ensures after { OnOk result (self.new.replica ≡ self.old.replica) }
        ensures left { OnOk result ((reads_at (here_at site.now) self.old.replica (front self.old.replica) key).after ≡ self.old.replica) }
        ensures writes { OnOk result ((reads_at (here_at site.now) self.old.replica (front self.old.replica) key).writes ≡ []) }
        ensures pages { length self.new.replica.pages ≡ length self.old.replica.pages }
        ensures fault { IsErrOf result NodeFault.DiskFault → HasRisen self.old.faults self.new.faults }
    {
        let front = self.published.front();
        match self.home.row_at(key, front) {
            Ok(row) => Ok(row_answer(front, row)),
            Err(ReadFault::TooOld { snapshot, horizon }) => {
                Ok(Answer::No(Refusal::TooOld { snapshot, horizon }))
            }
            Err(ReadFault::Gave { up }) => Err(NodeFault::from(up)),
        }
    }

    /// A block comes from a replica, the link back to which may be full: it is hardened where it is the next one. Its write
    /// may be stopped, or its write or its sync fail.
    #[allow(clippy::too_many_arguments)]
    pub fn block(
        &mut self,
        alloc: Global,
        site: &Site,
        from: u8,
        full: bool,
        term: u64,
        block: &Block,
        suffix: &Suffix,
    ) -> Result<(Answer, Option<Message>), NodeFault>
        requires pages { site.now.pages ≡ length self.old.replica.pages }
        requires fits { IsBlock block.now }
        requires whole { IsWhole block.now.records }
        requires proper { IsProper site.now.pages (block_part (here_at site.now) from self.old.replica full term block.now).after.kept.log }
        ensures answer { IfOk result (λ x. x.0
            ≡ (cut_part site.now.pages site.now.number suffix.now self.old.replica (block_part (here_at site.now) from self.old.replica full term block.now)).answer) }
        ensures out { IfOk result (λ x. posting_of from x.1
            ≡ (cut_part site.now.pages site.now.number suffix.now self.old.replica (block_part (here_at site.now) from self.old.replica full term block.now)).out) }
        ensures built { IfOk result (λ x. IfSome x.1 IsBuiltMessage) }
        ensures after { OnOk result (self.new.replica
            ≡ (cut_part site.now.pages site.now.number suffix.now self.old.replica (block_part (here_at site.now) from self.old.replica full term block.now)).after) }
        ensures leaves { IfOk result (λ x. leaves x.0 ≡ leaves (block_part (here_at site.now) from self.old.replica full term block.now).answer) }
        ensures pages { length self.new.replica.pages ≡ length self.old.replica.pages }
        ensures fault { IsErrOf result NodeFault.DiskFault → HasRisen self.old.faults self.new.faults }
    {
        if let Some(told) = self.block_case(site, from, full, term, block)? {
            return Ok(told);
        }
        let lsn = self
            .end()
            .checked_add(block.records.len() as u64)
            .ok_or(NoMemory)?;
        let message = self.ack(lsn);
        match self.append_block(alloc, block, suffix)? {
            Reach::End => Ok((Answer::Hardened { lsn }, Some(message))),
            Reach::Stop { whole } => Ok((stopped(alloc, whole), None)),
            Reach::Fault => Ok((device_failed(site), None)),
        }
    }

    /// What is done with a block that isn't hardened.
    #[tactic(auto, unfolding(ag_rules::specs::BlockMessage::block_part))]
    fn block_case(
        &self,
        site: &Site,
        from: u8,
        full: bool,
        term: u64,
        block: &Block,
    ) -> Result<Option<(Answer, Option<Message>)>, NoMemory>
        ensures part { IfOk result (λ told. MatchOption told (block_part (here_at site.now) from self.now.replica full term block.now
            ≡ hardens_block from self.now.replica block.now) (λ x. block_part (here_at site.now) from self.now.replica full term block.now ≡ sending x.0 (posting_of from x.1) self.now.replica)) }
        ensures built { IfOk result (λ told. IfSome told (λ x. IfSome x.1 IsBuiltMessage)) }
        ensures follows { IfOk result (λ told. IfNone told (self.now.replica.leads ≡ false)) }
        ensures state { IfOk result (λ told. IfNone told ((self.now.replica.state == 1) ≡ true)) }
        ensures up { IfOk result (λ told. IfNone told (self.now.replica.up ≡ true)) }
        ensures next { IfOk result (λ told. IfNone told (block.now.first ≡ end self.now.replica + 1)) }
        ensures room { IfOk result (λ told. IfNone told (block_sectors block.now.records ≤ free_sectors self.now.replica.kept.log)) }
    {
        if self.leads() || term != TERM || !self.follows() {
            return Ok(Some((Answer::No(Refusal::Nothing), None)));
        }
        let end = self.end();
        let expected = end.checked_add(1).ok_or(NoMemory)?;
        if expected < block.first {
            let first = block.first;
            return Ok(Some((Answer::No(Refusal::Gap { expected, first }), None)));
        }
        if full {
            let node = site.number;
            return Ok(Some((Answer::No(Refusal::LinkFull { node, to: from }), None)));
        }
        if block.first <= end {
            return Ok(Some((Answer::No(Refusal::Nothing), Some(self.ack(end)))));
        }
        match self.block_refusal(block.records.as_slice())? {
            Some(why) => Ok(Some((Answer::No(why), None))),
            None => Ok(None),
        }
    }

    /// Why the log has no room for a block of these records, if it has none.
    fn block_refusal(&self, new: &[Record]) -> Result<Option<Refusal>, NoMemory>
        requires up { self.now.replica.up ≡ true }
        ensures { IfOk result (λ why. IsRefusedBy why (log_check self.now.replica (new.now ∷ []))) }
    {
        self.log_refusal(records_size(new)?)
    }

    /// Hardens a block that came, and tells how far it came. Unless it comes to its end the node is down.
    fn append_block(
        &mut self,
        alloc: Global,
        block: &Block,
        suffix: &Suffix,
    ) -> Result<Reach, NodeFault>
        requires fits { ArePayload block.now.records }
        requires whole { IsWhole block.now.records }
        requires up { self.old.replica.up ≡ true }
        requires follows { self.old.replica.leads ≡ false }
        requires next { block.now.first ≡ end self.old.replica + 1 }
        requires room { block_sectors block.now.records ≤ free_sectors self.old.replica.kept.log }
        requires proper { IsProper (length self.old.replica.pages) (with_block self.old.replica.kept.log block.now.records) }
        ensures reach { IfOk result (λ r. r ≡ how_far suffix.now (block_sectors block.now.records) 2) }
        ensures after { IfOk result (λ r. self.new.replica ≡ (part_reached 0 self.old.replica (hardens_block 0 self.old.replica block.now) (Block_write block.now.records) r).after) }
        ensures pages { length self.new.replica.pages ≡ length self.old.replica.pages }
        ensures fault { IsErrOf result NodeFault.DiskFault → HasRisen self.old.faults self.new.faults }
    {
        match self.home.harden(block, suffix)? {
            Reach::End => Ok(Reach::End),
            Reach::Stop { whole } => {
                self.fall(alloc);
                Ok(Reach::Stop { whole })
            }
            Reach::Fault => {
                self.fall(alloc);
                Ok(Reach::Fault)
            }
        }
    }

    /// The Ack of a replica that has hardened up to an LSN.
    fn ack(&self, hardened: u64) -> Message
        requires up { self.now.replica.up ≡ true }
        ensures is { result ≡ ack_message self.now.replica hardened }
        ensures built { IsBuiltMessage result }
    {
        Message {
            term: TERM,
            body: Body::Ack {
                hardened,
                low: self.published.front(),
            },
        }
    }
}

/// A row at a front, as a session is answered.
fn row_answer(front: u64, row: Row) -> Answer
    ensures { result ≡ row_answer front row }
{
    match row {
        Row::Found(value) => Answer::Row { front, value },
        Row::Absent => Answer::Absent { front },
    }
}
