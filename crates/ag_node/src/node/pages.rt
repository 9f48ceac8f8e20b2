//! What the events of a node's pages do.
ghost use Rattle.std.specs.Prelude.{◌≡◌, ◌==◌, [], false, true, length, IfOk, OnOk, IsErrOf};
ghost use Rattle.ag_rules.specs.Replica.{is_bad, is_reverting, page_value};
ghost use Rattle.ag_rules.specs.FlushEvent.{flush_part, flushes, least_applied, pages_to_flush};
ghost use Rattle.ag_rules.specs.LookEvent.{page_part, sectors_part};
ghost use Rattle.ag_outside.specs.Counts.{HasRisen};
ghost use Rattle.ag_store.specs.Standing.{IsDataPage};
ghost use Rattle.ag_node.specs.Sites.{here_at};

use super::{Node, down};
use crate::fault::NodeFault;
use crate::site::Site;
use ag_model::answer::{Answer, Refusal};
use ag_model::list::ListOf;
use ag_model::value::PageValue;
use ag_outside::disk::Disk;
use std::alloc::Global;

impl<D: Disk> Node<D> {
    /// `page` at this replica: a page where its stripe stands.
    #[tactic(auto, unfolding(ag_rules::specs::LookEvent::page_part))]
    pub fn page(&mut self, site: &Site, page: u16) -> Result<Answer, NodeFault>
        requires pages { site.now.pages ≡ length self.old.replica.pages }
        requires page { IsDataPage (length self.old.replica.pages) page }
        ensures answer { IfOk result (λ a. a ≡ (page_part (here_at site.now) self.old.replica page).answer) }
        ensures after { OnOk result (self.new.replica ≡ (page_part (here_at site.now) self.old.replica page).after) }
        ensures writes { OnOk result ((page_part (here_at site.now) self.old.replica page).writes ≡ []) }
        ensures pages { length self.new.replica.pages ≡ length self.old.replica.pages }
        ensures fault { IsErrOf result NodeFault.DiskFault → HasRisen self.old.faults self.new.faults }
    {
        if !self.is_up() {
            return Ok(down(site));
        }
        let value = self.value_of(site.pages, page)?;
        let PageValue {
            lsn,
            horizon,
            versions,
            ..
        } = value;
        Ok(Answer::Page {
            lsn,
            horizon,
            versions,
        })
    }

    /// The value of a page where its stripe stands. There are so many pages.
    fn value_of(&mut self, pages: u16, page: u16) -> Result<PageValue, NodeFault>
        requires pages { pages ≡ length self.old.replica.pages }
        requires up { self.old.replica.up ≡ true }
        requires page { IsDataPage (length self.old.replica.pages) page }
        ensures value { IfOk result (λ v. v ≡ page_value pages self.old.replica page) }
        ensures good { is_bad self.old.replica page ≡ false }
        ensures steady { is_reverting self.old.replica.state ≡ false }
        ensures left { OnOk result (self.new.replica ≡ self.old.replica) }
        ensures pages { length self.new.replica.pages ≡ length self.old.replica.pages }
        ensures fault { IsErrOf result NodeFault.DiskFault → HasRisen self.old.faults self.new.faults }
    {
        let value = self.home.value_of(page)?;
        Ok(value)
    }

    /// `sectors` at this replica: the cells of a page's image. It may be down.
    #[tactic(auto, unfolding(ag_rules::specs::LookEvent::sectors_part))]
    pub fn sectors(&mut self, alloc: Global, page: u16) -> Result<Answer, NodeFault>
        requires page { IsDataPage (length self.old.replica.pages) page }
        ensures answer { IfOk result (λ a. a ≡ (sectors_part self.old.replica page).answer) }
        ensures after { OnOk result (self.new.replica ≡ (sectors_part self.old.replica page).after) }
        ensures writes { OnOk result ((sectors_part self.old.replica page).writes ≡ []) }
        ensures pages { length self.new.replica.pages ≡ length self.old.replica.pages }
        ensures fault { IsErrOf result NodeFault.DiskFault → HasRisen self.old.faults self.new.faults }
    {
        let cells = self.home.cells_of(page)?;
        let cells = Vec::from_slice(alloc, &cells)?;
        Ok(Answer::Sectors {
            cells: ListOf::from_vec(cells),
        })
    }

    /// `flush` at this replica: the dirty pages are written, and then the master with a new redo start.
    #[tactic(auto, unfolding(ag_rules::specs::FlushEvent::flush_part))]
    pub fn flush(&mut self, site: &Site) -> Result<Answer, NodeFault>
        requires pages { site.now.pages ≡ length self.old.replica.pages }
        ensures answer { IfOk result (λ a. a ≡ (flush_part (here_at site.now) self.old.replica).answer) }
        ensures after { OnOk result (self.new.replica ≡ (flush_part (here_at site.now) self.old.replica).after) }
        ensures pages { length self.new.replica.pages ≡ length self.old.replica.pages }
        ensures fault { IsErrOf result NodeFault.DiskFault → HasRisen self.old.faults self.new.faults }
    {
        if !self.is_up() {
            return Ok(down(site));
        }
        if self.is_flushed() {
            return Ok(Answer::No(Refusal::Nothing));
        }
        let lsn = self.flush_pages(site.pages)?;
        Ok(Answer::Flushed { lsn })
    }

    /// Whether the redo start is the least LSN to which a stripe was redone.
    fn is_flushed(&self) -> bool
        requires up { self.now.replica.up ≡ true }
        ensures is { result ≡ (least_applied self.now.replica == self.now.replica.kept.master.redo_start) }
        ensures steady { is_reverting self.now.replica.state ≡ false }
    {
        self.home.least_applied() == self.home.redo_start()
    }

    /// Writes the dirty pages and the master, and answers the new redo start. There are so many pages.
    fn flush_pages(&mut self, pages: u16) -> Result<u64, NodeFault>
        requires pages { pages ≡ length self.old.replica.pages }
        requires up { self.old.replica.up ≡ true }
        ensures lsn { IfOk result (λ lsn. lsn ≡ least_applied self.old.replica) }
        ensures after { OnOk result (self.new.replica ≡ (flushes self.old.replica (pages_to_flush pages self.old.replica)).after) }
        ensures pages { length self.new.replica.pages ≡ length self.old.replica.pages }
        ensures fault { IsErrOf result NodeFault.DiskFault → HasRisen self.old.faults self.new.faults }
    {
        let lsn = self.home.flush()?;
        Ok(lsn)
    }
}
