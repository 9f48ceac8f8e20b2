//! The pages of a disk as a home of images.
ghost use Rattle.std.specs.Prelude.{◌≡◌, ◌≤◌, ℕ, IsTrue, true, refl};
ghost use Rattle.std.proofs.Common.{◌∙◌};
ghost use Rattle.ag_pagestore.specs.Places.{IsPage};
ghost use Rattle.ag_pagestore.specs.Homes.{has_place, told_images, Leaves};
ghost use Rattle.ag_pagestore.specs.HomeLaws.{untouched_itself, leave_both};
ghost use Rattle.ag_pagestore.specs.Stores.{disk_of, held, IsOver, AreOverOne};

use crate::batch::{PageWrite, write_batch};
use crate::fault::{PageReadFault, PageWriteFault};
use crate::reading::read;
use ag_outside::disk::Disk;
use ag_page::{Got, HomeError, Image, PageHome};

/// The pages of a disk that is lent, from 16 to 2,063. The disk needs 33,088 sectors.
#[derive(Drop)]
pub struct PageStore<'a, D: Disk> {
    disk: &'a mut D,
    refusals: u64,
}

impl<'a, D: Disk> PageStore<'a, D> {
    /// The store over a disk.
    pub fn new(disk: &'a mut D) -> PageStore<'a, D>
        ensures over { IsOver result disk.entry }
        ensures disk { disk_of result ≡ disk.old }
        ensures refusals { (held result).refusals ≡ 0 }
        // It has each page, where the disk is large enough.
        ensures pages { 33088 ≤ D.size disk.old → (page : ℕ) → IsPage page → has_place (D.size (disk_of result)) page ≡ true }
    {
        PageStore { disk, refusals: 0 }
    }
}

impl<'a, D: Disk> PageHome for PageStore<'a, D> {
    ghost has_page = { λ s page. has_place (D.size (disk_of s)) page };

    ghost told = { λ s. told_images (D.keeps (disk_of s)) (D.reads (disk_of s)) };

    ghost faults = { λ s. D.faults (disk_of s) };

    ghost refusals = { λ s. (held s).refusals };

    ghost leaves = { λ a ws b. AreOverOne a b × Leaves D.size D.keeps D.reads D.may_hold D.did D.moment D.left_since (held a) ws (held b) };

    fn fetch(&mut self, page: u16, into: &mut Image) -> Result<Got, HomeError> {
        match read(self.disk, page, into) {
            Ok(()) => Ok(Got::Sound),
            Err(PageReadFault::Unreadable) => Ok(Got::Lost),
            Err(PageReadFault::Torn) => Ok(Got::Torn),
            Err(PageReadFault::DiskFault) => Err(HomeError::Failed),
            Err(PageReadFault::NoMemory) => {
                self.refusals = self.refusals.saturating_add(1);
                Err(HomeError::NoMemory)
            }
        }
    }

    fn put_back(&mut self, page: u16, image: &Image) -> Result<(), HomeError> {
        let write = PageWrite {
            page,
            image: *image,
        };
        match write_batch(self.disk, &[write]) {
            Ok(()) => Ok(()),
            Err(PageWriteFault::DiskFault) => Err(HomeError::Failed),
            Err(PageWriteFault::NoMemory) => {
                self.refusals = self.refusals.saturating_add(1);
                Err(HomeError::NoMemory)
            }
        }
    }

    ghost leaves_itself = { λ a. (refl, untouched_itself D.size D.keeps D.reads D.may_hold D.did (held a)) };

    ghost leaves_both = { λ a b c xs ys first then. (then.0 ∙ first.0, leave_both D.size D.keeps D.reads D.may_hold D.did D.moment D.left_since xs ys (held a) (held b) (held c) first.1 then.1) };
}
