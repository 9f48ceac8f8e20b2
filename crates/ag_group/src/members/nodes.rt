//! The events of one node.
ghost use Rattle.std.specs.Prelude.{◌≡◌, ◌<◌, ◌≤◌, IfOk, IfErr, OnOk, length, []};
ghost use Rattle.std.specs.List.{AllByRecursion};
ghost use Rattle.ag_built.specs.Built.{IsPair};
ghost use Rattle.ag_rules.specs.Group.{replica};
ghost use Rattle.ag_rules.specs.Plan.{here, at_node};
ghost use Rattle.ag_rules.specs.Cut.{cut};
ghost use Rattle.ag_rules.specs.SetEvent.{set_part};
ghost use Rattle.ag_rules.specs.HardenEvent.{harden_part};
ghost use Rattle.ag_rules.specs.ApplyEvent.{apply_part};
ghost use Rattle.ag_rules.specs.RaiseEvent.{raise_part};
ghost use Rattle.ag_rules.specs.RedoEvent.{redo_part};
ghost use Rattle.ag_rules.specs.ReadEvent.{read_part};
ghost use Rattle.ag_rules.specs.CrashEvent.{crash_part};
ghost use Rattle.ag_rules.specs.StartEvent.{start_part};
ghost use Rattle.ag_rules.specs.FlushEvent.{flush_part};
ghost use Rattle.ag_rules.specs.LookEvent.{page_part, sectors_part, status_part};
ghost use Rattle.ag_rules.specs.Script.{IsPage};
ghost use Rattle.ag_law_logs.specs.ProperRecords.{HardenedAreProper};
ghost use Rattle.ag_rules.specs.Next.{at_session, token, token_after};
ghost use Rattle.ag_rules.specs.Checks.{token_or_none};
ghost use Rattle.ag_group.specs.Faults.{IsCounted, IsLawful};

use super::Members;
use crate::fault::StepFault;
use ag_model::answer::Answer;
use ag_model::config::Token;
use ag_model::event::{PairList, Suffix};
use ag_model::value::NoMemory;
use ag_outside::disk::Disk;
use std::alloc::Global;

impl<D: Disk> Members<D> {
    /// `set`: a whole transaction of these puts.
    #[tactic(auto, unfolding(ag_rules::specs::SetEvent::set_part))]
    pub(super) fn set(&mut self, alloc: Global, n: u8, pairs: &PairList) -> Result<Answer, NoMemory>
        requires node { n < length self.old.group.config.modes }
        requires some { 1 ≤ length pairs.now }
        requires few { length pairs.now ≤ 8 }
        requires values { AllByRecursion IsPair pairs.now }
        ensures answer { IfOk result (λ a. a ≡ (at_node self.old.group n (set_part (here self.old.group n) (replica self.old.group n) pairs.now)).answer) }
        ensures after { OnOk result (self.new.group ≡ (at_node self.old.group n (set_part (here self.old.group n) (replica self.old.group n) pairs.now)).after) }
        ensures writes { OnOk result ((set_part (here self.old.group n) (replica self.old.group n) pairs.now).writes ≡ []) }
        ensures config { OnOk result (self.new.group.config ≡ self.old.group.config) }
    {
        let site = self.site(n);
        let node = &mut self.nodes[usize::from(n)];
        let answer = node.set(alloc, &site, pairs)?;
        Ok(answer)
    }

    /// `harden`: the buffer becomes a block.
    pub(super) fn harden(
        &mut self,
        alloc: Global,
        n: u8,
        suffix: &Suffix,
    ) -> Result<Answer, StepFault>
        requires node { n < length self.old.group.config.modes }
        requires proper { HardenedAreProper self.old.group.config.pages (at_node self.old.group n (harden_part (here self.old.group n) (replica self.old.group n))).after }
        ensures answer { IfOk result (λ a. a ≡ (cut suffix.now (at_node self.old.group n (harden_part (here self.old.group n) (replica self.old.group n)))).answer) }
        ensures after { OnOk result (self.new.group ≡ (cut suffix.now (at_node self.old.group n (harden_part (here self.old.group n) (replica self.old.group n)))).after) }
        ensures config { OnOk result (self.new.group.config ≡ self.old.group.config) }
        ensures fault { IfErr result (λ e. IsCounted e self.old.faults self.new.faults) }
        ensures lawful { IfErr result IsLawful }
    {
        let site = self.site(n);
        let node = &mut self.nodes[usize::from(n)];
        let answer = match node.harden(alloc, &site, suffix) {
            Ok(answer) => answer,
            Err(e) => return Err(StepFault::of_node(n, e)),
        };
        Ok(answer)
    }

    /// `apply`: a stripe goes through the next block of the log.
    #[tactic(auto, unfolding(ag_rules::specs::ApplyEvent::apply_part))]
    pub(super) fn apply(&mut self, n: u8, stripe: u8) -> Result<Answer, StepFault>
        requires node { n < length self.old.group.config.modes }
        requires stripe { stripe < 16 }
        ensures answer { IfOk result (λ a. a ≡ (at_node self.old.group n (apply_part (here self.old.group n) (replica self.old.group n) stripe)).answer) }
        ensures after { OnOk result (self.new.group ≡ (at_node self.old.group n (apply_part (here self.old.group n) (replica self.old.group n) stripe)).after) }
        ensures writes { OnOk result ((apply_part (here self.old.group n) (replica self.old.group n) stripe).writes ≡ []) }
        ensures config { OnOk result (self.new.group.config ≡ self.old.group.config) }
        ensures fault { IfErr result (λ e. IsCounted e self.old.faults self.new.faults) }
        ensures lawful { IfErr result IsLawful }
    {
        let site = self.site(n);
        let node = &mut self.nodes[usize::from(n)];
        let answer = match node.apply(&site, stripe) {
            Ok(answer) => answer,
            Err(e) => return Err(StepFault::of_node(n, e)),
        };
        Ok(answer)
    }

    /// `raise`: a stripe publishes what it has redone.
    #[tactic(auto, unfolding(ag_rules::specs::RaiseEvent::raise_part))]
    pub(super) fn raise(&mut self, n: u8, stripe: u8) -> Answer
        requires node { n < length self.old.group.config.modes }
        requires stripe { stripe < 16 }
        ensures answer { result ≡ (at_node self.old.group n (raise_part (here self.old.group n) (replica self.old.group n) stripe)).answer }
        ensures after { self.new.group ≡ (at_node self.old.group n (raise_part (here self.old.group n) (replica self.old.group n) stripe)).after }
        ensures writes { (raise_part (here self.old.group n) (replica self.old.group n) stripe).writes ≡ [] }
        ensures config { self.new.group.config ≡ self.old.group.config }
    {
        let site = self.site(n);
        let node = &mut self.nodes[usize::from(n)];
        node.raise(&site, stripe)
    }

    /// `redo`: every stripe is applied to the end and raised.
    #[tactic(auto, unfolding(ag_rules::specs::RedoEvent::redo_part))]
    pub(super) fn redo(&mut self, n: u8) -> Result<Answer, StepFault>
        requires node { n < length self.old.group.config.modes }
        ensures answer { IfOk result (λ a. a ≡ (at_node self.old.group n (redo_part (here self.old.group n) (replica self.old.group n))).answer) }
        ensures after { OnOk result (self.new.group ≡ (at_node self.old.group n (redo_part (here self.old.group n) (replica self.old.group n))).after) }
        ensures writes { OnOk result ((redo_part (here self.old.group n) (replica self.old.group n)).writes ≡ []) }
        ensures config { OnOk result (self.new.group.config ≡ self.old.group.config) }
        ensures fault { IfErr result (λ e. IsCounted e self.old.faults self.new.faults) }
        ensures lawful { IfErr result IsLawful }
    {
        let site = self.site(n);
        let node = &mut self.nodes[usize::from(n)];
        let answer = match node.redo(&site) {
            Ok(answer) => answer,
            Err(e) => return Err(StepFault::of_node(n, e)),
        };
        Ok(answer)
    }

    /// `flush`: the dirty pages are written, and then the master with a new redo start.
    pub(super) fn flush(&mut self, n: u8) -> Result<Answer, StepFault>
        requires node { n < length self.old.group.config.modes }
        ensures answer { IfOk result (λ a. a ≡ (at_node self.old.group n (flush_part (here self.old.group n) (replica self.old.group n))).answer) }
        ensures after { OnOk result (self.new.group ≡ (at_node self.old.group n (flush_part (here self.old.group n) (replica self.old.group n))).after) }
        ensures config { OnOk result (self.new.group.config ≡ self.old.group.config) }
        ensures fault { IfErr result (λ e. IsCounted e self.old.faults self.new.faults) }
        ensures lawful { IfErr result IsLawful }
    {
        let site = self.site(n);
        let node = &mut self.nodes[usize::from(n)];
        let answer = match node.flush(&site) {
            Ok(answer) => answer,
            Err(e) => return Err(StepFault::of_node(n, e)),
        };
        Ok(answer)
    }

    /// `crash`: all is lost but what the node keeps.
    #[tactic(auto, unfolding(ag_rules::specs::CrashEvent::crash_part))]
    pub(super) fn crash(&mut self, alloc: Global, n: u8) -> Answer
        requires node { n < length self.old.group.config.modes }
        ensures answer { result ≡ (at_node self.old.group n (crash_part (here self.old.group n) (replica self.old.group n))).answer }
        ensures after { self.new.group ≡ (at_node self.old.group n (crash_part (here self.old.group n) (replica self.old.group n))).after }
        ensures writes { (crash_part (here self.old.group n) (replica self.old.group n)).writes ≡ [] }
        ensures config { self.new.group.config ≡ self.old.group.config }
    {
        let site = self.site(n);
        let node = &mut self.nodes[usize::from(n)];
        node.crash(alloc, &site)
    }

    /// `start`: a node comes up, as primary exactly where the store names it.
    pub(super) fn start(
        &mut self,
        alloc: Global,
        n: u8,
        suffix: &Suffix,
    ) -> Result<Answer, StepFault>
        requires node { n < length self.old.group.config.modes }
        ensures answer { IfOk result (λ a. a ≡ (cut suffix.now (at_node self.old.group n (start_part (here self.old.group n) (replica self.old.group n)))).answer) }
        ensures after { OnOk result (self.new.group ≡ (cut suffix.now (at_node self.old.group n (start_part (here self.old.group n) (replica self.old.group n)))).after) }
        ensures config { OnOk result (self.new.group.config ≡ self.old.group.config) }
        ensures fault { IfErr result (λ e. IsCounted e self.old.faults self.new.faults) }
        ensures lawful { IfErr result IsLawful }
    {
        let site = self.site(n);
        let node = &mut self.nodes[usize::from(n)];
        let answer = match node.start(alloc, &site, self.config.modes.as_slice(), suffix) {
            Ok(answer) => answer,
            Err(e) => return Err(StepFault::of_node(n, e)),
        };
        Ok(answer)
    }

    /// `status`: what a node says of itself.
    #[tactic(auto, unfolding(ag_rules::specs::LookEvent::status_part))]
    pub(super) fn status(&self, n: u8) -> Answer
        requires node { n < length self.now.group.config.modes }
        ensures answer { result ≡ (at_node self.now.group n (status_part (here self.now.group n) (replica self.now.group n))).answer }
        ensures left { (at_node self.now.group n (status_part (here self.now.group n) (replica self.now.group n))).after ≡ self.now.group }
        ensures writes { (status_part (here self.now.group n) (replica self.now.group n)).writes ≡ [] }
    {
        let site = self.site(n);
        let node = &self.nodes[usize::from(n)];
        node.status(&site)
    }

    /// `page`: a page where its stripe stands.
    pub(super) fn page(&mut self, n: u8, page: u16) -> Result<Answer, StepFault>
        requires node { n < length self.old.group.config.modes }
        requires page { IsPage self.old.group.config page }
        ensures answer { IfOk result (λ a. a ≡ (at_node self.old.group n (page_part (here self.old.group n) (replica self.old.group n) page)).answer) }
        ensures after { OnOk result (self.new.group ≡ (at_node self.old.group n (page_part (here self.old.group n) (replica self.old.group n) page)).after) }
        ensures writes { OnOk result ((page_part (here self.old.group n) (replica self.old.group n) page).writes ≡ []) }
        ensures config { OnOk result (self.new.group.config ≡ self.old.group.config) }
        ensures fault { IfErr result (λ e. IsCounted e self.old.faults self.new.faults) }
        ensures lawful { IfErr result IsLawful }
    {
        let site = self.site(n);
        let node = &mut self.nodes[usize::from(n)];
        let answer = match node.page(&site, page) {
            Ok(answer) => answer,
            Err(e) => return Err(StepFault::of_node(n, e)),
        };
        Ok(answer)
    }

    /// `sectors`: the marks of a page's image, also of a node that is down.
    pub(super) fn sectors(&mut self, alloc: Global, n: u8, page: u16) -> Result<Answer, StepFault>
        requires node { n < length self.old.group.config.modes }
        requires page { IsPage self.old.group.config page }
        ensures answer { IfOk result (λ a. a ≡ (at_node self.old.group n (sectors_part (replica self.old.group n) page)).answer) }
        ensures after { OnOk result (self.new.group ≡ (at_node self.old.group n (sectors_part (replica self.old.group n) page)).after) }
        ensures writes { OnOk result ((sectors_part (replica self.old.group n) page).writes ≡ []) }
        ensures config { OnOk result (self.new.group.config ≡ self.old.group.config) }
        ensures fault { IfErr result (λ e. IsCounted e self.old.faults self.new.faults) }
        ensures lawful { IfErr result IsLawful }
    {
        let node = &mut self.nodes[usize::from(n)];
        let answer = match node.sectors(alloc, page) {
            Ok(answer) => answer,
            Err(e) => return Err(StepFault::of_node(n, e)),
        };
        Ok(answer)
    }

    /// `read`: the row at the front of a replica, for a session.
    pub(super) fn read(&mut self, n: u8, s: u8, key: u32) -> Result<Answer, StepFault>
        requires node { n < length self.old.group.config.modes }
        requires session { s < 64 }
        ensures answer { IfOk result (λ a. a ≡ (at_session self.old.group n s (read_part (here self.old.group n) (replica self.old.group n) (token self.old.group s) key)).answer) }
        ensures after { OnOk result (self.new.group ≡ (at_session self.old.group n s (read_part (here self.old.group n) (replica self.old.group n) (token self.old.group s) key)).after) }
        ensures writes { OnOk result ((read_part (here self.old.group n) (replica self.old.group n) (token self.old.group s) key).writes ≡ []) }
        ensures config { OnOk result (self.new.group.config ≡ self.old.group.config) }
        ensures fault { IfErr result (λ e. IsCounted e self.old.faults self.new.faults) }
        ensures lawful { IfErr result IsLawful }
    {
        let site = self.site(n);
        let old = self.tokens[usize::from(s)];
        let token = token_or_none(old);
        let node = &mut self.nodes[usize::from(n)];
        let term = node.term();
        let answer = match node.read(&site, &token, key) {
            Ok(answer) => answer,
            Err(e) => return Err(StepFault::of_node(n, e)),
        };
        self.tokens[usize::from(s)] = token_after(term, &answer, old);
        Ok(answer)
    }
}

/// A session's token, or one that has seen nothing.
fn token_or_none(token: Option<Token>) -> Token
    ensures { result ≡ token_or_none token }
{
    match token {
        Some(token) => token,
        None => Token { term: 0, lsn: 0 },
    }
}

/// The token that an answer of a node in this term leaves.
fn token_after(term: u64, answer: &Answer, old: Option<Token>) -> Option<Token>
    ensures { result ≡ token_after term answer.now old }
{
    match answer {
        Answer::Row {
            front: lsn,
            value: _,
        }
        | Answer::Absent { front: lsn }
        | Answer::Snap { front: lsn } => Some(Token { term, lsn: *lsn }),
        _ => old,
    }
}
