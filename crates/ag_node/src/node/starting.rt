//! Crash, start, and what a replica says of itself.
ghost use Rattle.std.specs.Prelude.{◌≡◌, ◌+◌, ◌≤◌, ◌<◌, ◌==◌, [], ◌∷◌, false, true, IfOk, OnOk, IsErrOf, IfSome, IfNone, length};
ghost use Rattle.ag_rules.specs.Replica.{all_at, end, fallen};
ghost use Rattle.ag_rules.specs.Plan.{Master_write, refused};
ghost use Rattle.ag_rules.specs.CrashEvent.{crash_part};
ghost use Rattle.ag_rules.specs.StartEvent.{start_part, started_master};
ghost use Rattle.ag_rules.specs.LookEvent.{status_part, printed_state, role_of};
ghost use Rattle.ag_node.specs.Sites.{here_at, here_among};
ghost use Rattle.ag_outside.specs.Counts.{HasRisen};
ghost use Rattle.ag_kept.specs.Reaching.{how_far};
ghost use Rattle.ag_node.specs.Starting.{CanStart, leads_up, started_after, started_answer, woken_up};
ghost use Rattle.ag_node.specs.Suffixes.{cut_part};

use super::{Node, TERM, device_failed, down, stopped};
use crate::fault::NodeFault;
use crate::opening::strangers;
use crate::published::Published;
use crate::room::used_in;
use crate::site::Site;
use crate::txns::last_txn;
use ag_cluster::members::has_member;
use ag_kept::Reach;
use ag_model::answer::{Answer, Refusal, Role};
use ag_model::config::Mode;
use ag_model::event::Suffix;
use ag_model::list::ListOf;
use ag_model::value::NoMemory;
use ag_outside::disk::Disk;
use std::alloc::Global;

impl<D: Disk> Node<D> {
    /// `crash` at this replica: all is lost but its log and its master.
    #[tactic(auto, unfolding(ag_rules::specs::CrashEvent::crash_part))]
    pub fn crash(&mut self, alloc: Global, site: &Site) -> Answer
        ensures answer { result ≡ (crash_part (here_at site.now) self.old.replica).answer }
        ensures after { self.new.replica ≡ (crash_part (here_at site.now) self.old.replica).after }
        ensures writes { (crash_part (here_at site.now) self.old.replica).writes ≡ [] }
        ensures pages { length self.new.replica.pages ≡ length self.old.replica.pages }
        ensures faults { self.new.faults ≡ self.old.faults }
    {
        if !self.is_up() {
            return down(site);
        }
        self.fall(alloc);
        Answer::Crashed
    }

    /// Forgets what a crash loses.
    pub(super) fn fall(&mut self, alloc: Global)
        ensures after { self.new.replica ≡ fallen self.old.replica self.old.replica.kept }
        ensures pages { length self.new.replica.pages ≡ length self.old.replica.pages }
        ensures faults { self.new.faults ≡ self.old.faults }
    {
        self.home.fall();
        self.buffer = ListOf::new(alloc);
        self.buffered = 0;
        self.last_txn = 0;
        self.synced = 0;
        self.peers = Vec::new(alloc);
    }

    /// `start` at this replica: it comes up from its log and its master, as primary exactly where the store names it. The
    /// replicas of the group have these modes. The write of the master may be stopped, or the barrier's sync, that write or
    /// its sync fail.
    pub fn start(
        &mut self,
        alloc: Global,
        site: &Site,
        modes: &[Mode],
        suffix: &Suffix,
    ) -> Result<Answer, NodeFault>
        requires pages { site.now.pages ≡ length self.old.replica.pages }
        requires term { site.now.store.term ≡ 1 }
        ensures answer { IfOk result (λ a. a ≡ (cut_part site.now.pages site.now.number suffix.now self.old.replica (start_part (here_among site.now modes.now) self.old.replica)).answer) }
        ensures after { OnOk result (self.new.replica ≡ (cut_part site.now.pages site.now.number suffix.now self.old.replica (start_part (here_among site.now modes.now) self.old.replica)).after) }
        ensures pages { length self.new.replica.pages ≡ length self.old.replica.pages }
        ensures fault { IsErrOf result NodeFault.DiskFault → HasRisen self.old.faults self.new.faults }
    {
        let _ = &self.home;
        if let Some(why) = self.start_refusal(site, modes)? {
            return Ok(Answer::No(why));
        }
        match self.start_home(alloc, site.pages, suffix)? {
            Reach::End => {
                let answer = self.start_whole(alloc, site, modes)?;
                Ok(answer)
            }
            Reach::Stop { whole } => {
                self.fall(alloc);
                Ok(stopped(alloc, whole))
            }
            Reach::Fault => {
                self.fall(alloc);
                Ok(device_failed(site))
            }
        }
    }

    /// Why it can't start, if it can't.
    #[tactic(auto, unfolding(ag_rules::specs::StartEvent::start_part))]
    fn start_refusal(&mut self, site: &Site, modes: &[Mode]) -> Result<Option<Refusal>, NodeFault>
        requires pages { site.now.pages ≡ length self.old.replica.pages }
        requires term { site.now.store.term ≡ 1 }
        ensures part { IfOk result (λ w. IfSome w (λ why. start_part (here_among site.now modes.now) self.old.replica ≡ refused why self.old.replica)) }
        ensures can { IfOk result (λ w. IfNone w (CanStart self.old.replica)) }
        ensures roles { IfOk result (λ w. IfNone w ((self.old.replica.leads ≡ false) × ((self.old.replica.state == 1) ≡ false))) }
        ensures few { IfOk result (λ w. IfNone w (self.old.replica.kept.master.incarnation < 9223372036854775808)) }
        ensures writes { IfOk result (λ w. IfNone w ((start_part (here_among site.now modes.now) self.old.replica).writes ≡ []
            ∷ (Master_write (started_master self.old.replica) (end self.old.replica) ∷ []) ∷ [])) }
        ensures left { OnOk result (self.new.replica ≡ self.old.replica) }
        ensures pages { length self.new.replica.pages ≡ length self.old.replica.pages }
        ensures later { OnOk result (self.old.faults ≤ self.new.faults) }
        ensures fault { IsErrOf result NodeFault.DiskFault → HasRisen self.old.faults self.new.faults }
    {
        let _ = modes;
        let _ = &self.home;
        if self.is_up() {
            return Ok(Some(Refusal::Nothing));
        }
        let incarnation = self.incarnation()?;
        if incarnation >= 9_223_372_036_854_775_808 {
            return Ok(Some(Refusal::Spent));
        }
        Ok(None)
    }

    /// The incarnation in the master of a node that is down.
    fn incarnation(&mut self) -> Result<u64, NodeFault>
        requires down { self.old.replica.up ≡ false }
        ensures is { IfOk result (λ n. n ≡ self.old.replica.kept.master.incarnation) }
        ensures left { OnOk result (self.new.replica ≡ self.old.replica) }
        ensures pages { length self.new.replica.pages ≡ length self.old.replica.pages }
        ensures later { OnOk result (self.old.faults ≤ self.new.faults) }
        ensures fault { IsErrOf result NodeFault.DiskFault → HasRisen self.old.faults self.new.faults }
    {
        let incarnation = self.home.incarnation()?;
        Ok(incarnation)
    }

    /// Starts a node that is down from its disk, as a secondary that follows nobody: its log is redone and published.
    fn start_home(&mut self, alloc: Global, pages: u16, suffix: &Suffix) -> Result<Reach, NodeFault>
        requires pages { pages ≡ length self.old.replica.pages }
        requires down { self.old.replica.up ≡ false }
        requires few { self.old.replica.kept.master.incarnation < 9223372036854775808 }
        ensures reach { IfOk result (λ r. r ≡ how_far suffix.now 1 3) }
        ensures after { IfOk result (λ r. self.new.replica ≡ woken_up pages self.old.replica r) }
        ensures pages { length self.new.replica.pages ≡ length self.old.replica.pages }
        ensures fault { IsErrOf result NodeFault.DiskFault → HasRisen self.old.faults self.new.faults }
    {
        match self.home.start(alloc, suffix)? {
            Reach::End => {
                let end = self.home.end();
                self.published = Published::all_at(end);
                Ok(Reach::End)
            }
            Reach::Stop { whole } => Ok(Reach::Stop { whole }),
            Reach::Fault => Ok(Reach::Fault),
        }
    }

    /// Goes on to start, once its log is redone: where the store names it, it leads.
    fn start_whole(
        &mut self,
        alloc: Global,
        site: &Site,
        modes: &[Mode],
    ) -> Result<Answer, NoMemory>
        requires pages { site.now.pages ≡ length self.old.replica.pages }
        requires up { self.old.replica.up ≡ true }
        requires follows { (self.old.replica.state == 1) ≡ false }
        requires stripes { self.old.replica.stripes ≡ all_at (end self.old.replica) }
        ensures answer { IfOk result (λ a. a ≡ started_answer (here_among site.now modes.now) self.old.replica) }
        ensures after { OnOk result (self.new.replica ≡ started_after (here_among site.now modes.now) self.old.replica) }
        ensures pages { length self.new.replica.pages ≡ length self.old.replica.pages }
    {
        let end = self.end();
        if site.store.primary == site.number {
            self.lead(alloc, site, modes)?;
            Ok(started(Role::Primary, end))
        } else {
            Ok(started(Role::Secondary, end))
        }
    }

    /// Leads from now on. Its log has no open transaction, and nobody is connected.
    fn lead(&mut self, alloc: Global, site: &Site, modes: &[Mode]) -> Result<(), NoMemory>
        requires pages { site.now.pages ≡ length self.old.replica.pages }
        requires up { self.old.replica.up ≡ true }
        requires follows { (self.old.replica.state == 1) ≡ false }
        requires stripes { self.old.replica.stripes ≡ all_at (end self.old.replica) }
        ensures after { OnOk result (self.new.replica ≡ leads_up (here_among site.now modes.now) self.old.replica) }
        ensures pages { length self.new.replica.pages ≡ length self.old.replica.pages }
    {
        let records = self.home.records();
        let used = used_in(alloc, site.pages, records)?;
        let peers = strangers(alloc, modes.len())?;
        let last = last_txn(records);
        self.used = used;
        self.peers = peers;
        self.synced = site.store.synced;
        self.last_txn = last;
        self.buffer = ListOf::new(alloc);
        self.buffered = 0;
        self.home.stand(true);
        Ok(())
    }

    /// `status` at this replica.
    #[tactic(auto, unfolding(ag_rules::specs::LookEvent::status_part))]
    pub fn status(&self, site: &Site) -> Answer
        requires number { site.now.number < 16 }
        ensures answer { result ≡ (status_part (here_at site.now) self.now.replica).answer }
        ensures left { (status_part (here_at site.now) self.now.replica).after ≡ self.now.replica }
        ensures writes { (status_part (here_at site.now) self.now.replica).writes ≡ [] }
    {
        if !self.is_up() {
            return down(site);
        }
        Answer::Status {
            role: self.role(),
            state: self.printed_state(site),
            term: self.term(),
            end: self.end(),
            front: self.front(),
        }
    }

    /// The role as it is printed.
    fn role(&self) -> Role
        ensures { result ≡ role_of self.now.replica }
    {
        if self.leads() {
            Role::Primary
        } else {
            Role::Secondary
        }
    }

    /// The state as it is printed: 2 for a primary, and for a member that follows.
    fn printed_state(&self, site: &Site) -> u8
        requires number { site.now.number < 16 }
        ensures { result ≡ printed_state (here_at site.now) self.now.replica }
    {
        if self.leads() {
            return 2;
        }
        if !self.follows() {
            return 0;
        }
        if site.store.term == self.term() && has_member(site.store.synced, site.number) {
            2
        } else {
            1
        }
    }
}

/// The answer of a start, where the log ends at this LSN.
fn started(role: Role, end: u64) -> Answer
    ensures { result ≡ Answer.Started role 1 end end }
{
    Answer::Started {
        role,
        term: TERM,
        end,
        front: end,
    }
}
