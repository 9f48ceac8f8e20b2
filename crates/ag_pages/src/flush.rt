//! The dirty pages, written in batches of eight.
ghost use Rattle.std.specs.Prelude.{◌≡◌, ◌<◌, ◌≤◌, ◌∷◌, [], ℕ, true, false, length, map, take, Err, Some, if◌then◌else◌, IsTrue, IfOk, OnOk, IfErr};
ghost use Rattle.std.specs.List.{AllByRecursion};
ghost use Rattle.ag_model.specs.declared.value.PageValue.{PageValue};
ghost use Rattle.ag_model.specs.Cells.{written_cells};
ghost use Rattle.ag_model.specs.Rows.{contains};
ghost use Rattle.ag_outside.specs.Calls.{FailsOnTheWay};
ghost use Rattle.ag_outside.specs.Counts.{HasRisen};
ghost use Rattle.ag_outside.specs.Disks.{Only};
ghost use Rattle.ag_page.specs.Spelling.{IsInRange};
ghost use Rattle.ag_pagestore.specs.Batches.{IsBatch, IsWhole, IsWritten, pieces};
ghost use Rattle.ag_pagestore.specs.Places.{image_of, page_cells, IsOutside};
ghost use Rattle.ag_rules.specs.FlushEvent.{by_eights, unless_none};
ghost use Rattle.ag_stripe.specs.Known.{in_home};
ghost use Rattle.ag_stripe.specs.Known.Known.{Value};
ghost use Rattle.ag_pages.specs.declared.flush.FlushFault.TheVariants.{Disk, Unlawful};
ghost use Rattle.ag_pages.specs.Views.{slot, is_page, is_dirty, known_of, told_by};
ghost use Rattle.ag_pages.specs.Reading.{WasOnlyRead, OnlyReadsIn};
ghost use Rattle.ag_pages.specs.Flush.{IsToWrite, IsDirtyBatch, HasItsImage, dirty_pages, page_write, page_writes};
ghost use Rattle.ag_pages.specs.Flush.{batches, one_more_if, TookBatch, TakesBatches, BreaksOff, Flushed, IsFlushFault, StayKept};

use crate::pages::Pages;
use crate::pending::PageBatch;
use ag_outside::disk::Disk;
use ag_page::Image;
use ag_pagestore::{PageWrite, PageWriteFault, write_batch};
use ag_stripe::StripeFault;

/// Why the dirty pages aren't written.
#[derive(Clone, Copy, Debug, PartialEq, Eq)]
pub enum FlushFault {
    /// The disk failed. Its count of faults has risen.
    Disk,
    /// The value of the dirty page has no image.
    Unlawful { page: u16 },
    /// Memory was refused.
    NoMemory,
}

/// Writes images by one batch.
fn write_all<D: Disk>(disk: &mut D, writes: &[PageWrite]) -> Result<(), FlushFault>
    requires batch { IsBatch writes.now }
    requires places { 33088 ≤ D.size disk.old }
    requires keeps { IsTrue (D.keeps disk.old) }
    ensures written { OnOk result (IsWritten (D.reads disk.old) writes.now (D.reads disk.new)) }
    ensures took { OnOk result (TookBatch D.size D.keeps D.reads D.may_hold D.did disk.old writes.now disk.new) }
    ensures lawful { (page : ℕ) → result ≡ Err (Unlawful page) → ⊥ }
    ensures broken { result ≡ Err Disk → FailsOnTheWay D.did disk.old (pieces (D.reads disk.old) writes.now) disk.new }
    ensures cause { result ≡ Err Disk → HasRisen (D.faults disk.old) (D.faults disk.new) }
    ensures later { D.faults disk.old ≤ D.faults disk.new }
    ensures size { D.size disk.new ≡ D.size disk.old }
    ensures keeps { D.keeps disk.new ≡ D.keeps disk.old }
{
    match write_batch(disk, writes) {
        Ok(()) => Ok(()),
        Err(PageWriteFault::DiskFault) => Err(FlushFault::Disk),
        Err(PageWriteFault::NoMemory) => Err(FlushFault::NoMemory),
    }
}

/// A sector has 512 bytes, as its type says.
fn is_long(sector: &[u8; 512])
    ensures { length sector.now ≡ 512 }
{}

/// The write of an image over a page. The loop only shows that each sector is long.
fn write_of(page: u16, image: &Image) -> PageWrite
    ensures write { result ≡ record { page = page; image = image.now } }
    ensures whole { IsWhole result }
{
    for sector in image {
        is_long(sector);
    }
    PageWrite {
        page,
        image: *image,
    }
}

impl Pages {
    /// The image of what memory keeps of a page, and the page.
    fn page_write<D: Disk>(&mut self, disk: &mut D, page: u16) -> Result<PageWrite, FlushFault>
        requires page { IsToWrite self.old page }
        requires places { 33088 ≤ D.size disk.old }
        ensures write { IfOk result (λ w. w ≡ page_write (slot self.old) page) }
        ensures whole { IfOk result IsWhole }
        ensures fit { OnOk result (HasItsImage (slot self.old) page) }
        ensures fault { IfErr result (IsFlushFault (told_by D.keeps D.reads disk.old) self.old) }
        ensures reads { OnlyReadsIn (told_by D.keeps D.reads disk.old) self.old self.new }
        ensures disk { WasOnlyRead D.size D.keeps D.reads D.may_hold D.did disk.old disk.new }
        ensures cause { result ≡ Err Disk → HasRisen (D.faults disk.old) (D.faults disk.new) }
        ensures later { D.faults disk.old ≤ D.faults disk.new }
    {
        let mut image = [[0; 512]; 16];
        match self.image_of(disk, page, &mut image) {
            Ok(()) => Ok(write_of(page, &image)),
            Err(StripeFault::Unlawful { page }) => Err(FlushFault::Unlawful { page }),
            Err(StripeFault::Home) => Err(FlushFault::Disk),
            Err(StripeFault::NoMemory) => Err(FlushFault::NoMemory),
            Err(StripeFault::Bad { .. }) => unreachable!(),
            Err(StripeFault::Pending { .. }) => unreachable!(),
            Err(StripeFault::TooOld { .. }) => unreachable!(),
        }
    }

    /// The images of pages, from the first place of the buffer on.
    fn page_writes<D: Disk>(
        &mut self,
        disk: &mut D,
        pages: &[u16],
        writes: &mut [PageWrite; 8],
    ) -> Result<(), FlushFault>
        requires few { length pages.now ≤ 8 }
        requires each { AllByRecursion (IsToWrite self.old) pages.now }
        requires places { 33088 ≤ D.size disk.old }
        ensures writes { OnOk result (take (length pages.now) writes.new ≡ page_writes (slot self.old) pages.now) }
        ensures whole { OnOk result (AllByRecursion IsWhole (page_writes (slot self.old) pages.now)) }
        ensures fit { OnOk result (AllByRecursion (HasItsImage (slot self.old)) pages.now) }
        ensures fault { IfErr result (IsFlushFault (told_by D.keeps D.reads disk.old) self.old) }
        ensures reads { OnlyReadsIn (told_by D.keeps D.reads disk.old) self.old self.new }
        ensures disk { WasOnlyRead D.size D.keeps D.reads D.may_hold D.did disk.old disk.new }
        ensures cause { result ≡ Err Disk → HasRisen (D.faults disk.old) (D.faults disk.new) }
        ensures later { D.faults disk.old ≤ D.faults disk.new }
    {
        for (i, page) in pages.iter().enumerate() {
            let write = self.page_write(disk, *page)?;
            writes[i] = write;
        }
        Ok(())
    }

    /// Says that the images of pages were written.
    fn all_cleaned(&mut self, pages: &[u16])
        requires { AllByRecursion (λ p. is_page self.old p ≡ true) pages.now }
        ensures count { self.new.count ≡ self.old.count }
        ensures applied { self.new.applied ≡ self.old.applied }
        ensures values { (q : ℕ) → (slot self.new q).value ≡ (slot self.old q).value }
        ensures dirty { (q : ℕ) → is_dirty self.new q ≡ (if contains q pages.now then false else is_dirty self.old q) }
    {
        for page in pages {
            self.cleaned(*page);
        }
    }

    /// Writes the images of 1 to 8 dirty pages, which rise, by one batch. Then they are clean.
    fn flush_batch<D: Disk>(&mut self, disk: &mut D, pages: &[u16]) -> Result<(), FlushFault>
        requires batch { IsDirtyBatch self.old pages.now }
        requires places { 33088 ≤ D.size disk.old }
        requires keeps { IsTrue (D.keeps disk.old) }
        ensures flushed { OnOk result (Flushed D.size D.keeps D.reads D.may_hold D.did disk.old (slot self.old) (pages.now ∷ []) disk.new (slot self.new)) }
        ensures fault { IfErr result (IsFlushFault (told_by D.keeps D.reads disk.old) self.old) }
        ensures broken { result ≡ Err Disk → BreaksOff D.size D.keeps D.reads D.may_hold D.did disk.old (page_writes (slot self.old) pages.now ∷ []) disk.new }
        ensures count { self.new.count ≡ self.old.count }
        ensures applied { self.new.applied ≡ self.old.applied }
        ensures kept { StayKept (slot self.old) (slot self.new) }
        ensures cause { result ≡ Err Disk → HasRisen (D.faults disk.old) (D.faults disk.new) }
        ensures later { D.faults disk.old ≤ D.faults disk.new }
        ensures size { D.size disk.new ≡ D.size disk.old }
        ensures keeps { D.keeps disk.new ≡ D.keeps disk.old }
    {
        let mut writes = [PageWrite {
            page: 0,
            image: [[0; 512]; 16],
        }; 8];
        self.page_writes(disk, pages, &mut writes)?;
        write_all(disk, &writes[..pages.len()])?;
        self.all_cleaned(pages);
        Ok(())
    }

    /// Puts a page into the batch, where it is dirty. A batch that is full is written first.
    fn visit<D: Disk>(
        &mut self,
        disk: &mut D,
        batch: &mut PageBatch,
        page: u16,
    ) -> Result<(), FlushFault>
        requires page { is_page self.old page ≡ true }
        requires few { length batch.old ≤ 8 }
        requires full { 0 < length batch.old → IsDirtyBatch self.old batch.old }
        requires places { 33088 ≤ D.size disk.old }
        requires keeps { IsTrue (D.keeps disk.old) }
        ensures flushed { OnOk result (Flushed D.size D.keeps D.reads D.may_hold D.did disk.old (slot self.old) (one_more_if (is_dirty self.old page) batch.old page).full disk.new (slot self.new)) }
        ensures batch { OnOk result (batch.new ≡ (one_more_if (is_dirty self.old page) batch.old page).last) }
        ensures fault { IfErr result (IsFlushFault (told_by D.keeps D.reads disk.old) self.old) }
        ensures broken { result ≡ Err Disk → BreaksOff D.size D.keeps D.reads D.may_hold D.did disk.old
            (map (page_writes (slot self.old)) (one_more_if (is_dirty self.old page) batch.old page).full) disk.new }
        ensures count { self.new.count ≡ self.old.count }
        ensures applied { self.new.applied ≡ self.old.applied }
        ensures kept { StayKept (slot self.old) (slot self.new) }
        ensures cause { result ≡ Err Disk → HasRisen (D.faults disk.old) (D.faults disk.new) }
        ensures later { D.faults disk.old ≤ D.faults disk.new }
        ensures size { D.size disk.new ≡ D.size disk.old }
        ensures keeps { D.keeps disk.new ≡ D.keeps disk.old }
    {
        if !self.is_dirty(page) {
            return Ok(());
        }
        if batch.len() == 8 {
            self.flush_batch(disk, batch.as_slice())?;
            *batch = PageBatch::empty();
        }
        batch.push(page);
        Ok(())
    }

    /// Writes the images of the pages of a batch, unless there are none.
    fn finish<D: Disk>(&mut self, disk: &mut D, batch: &PageBatch) -> Result<(), FlushFault>
        requires pages { 0 < length batch.now → IsDirtyBatch self.old batch.now }
        requires places { 33088 ≤ D.size disk.old }
        requires keeps { IsTrue (D.keeps disk.old) }
        ensures flushed { OnOk result (Flushed D.size D.keeps D.reads D.may_hold D.did disk.old (slot self.old) (unless_none batch.now) disk.new (slot self.new)) }
        ensures fault { IfErr result (IsFlushFault (told_by D.keeps D.reads disk.old) self.old) }
        ensures broken { result ≡ Err Disk → BreaksOff D.size D.keeps D.reads D.may_hold D.did disk.old (map (page_writes (slot self.old)) (unless_none batch.now)) disk.new }
        ensures count { self.new.count ≡ self.old.count }
        ensures applied { self.new.applied ≡ self.old.applied }
        ensures kept { StayKept (slot self.old) (slot self.new) }
        ensures cause { result ≡ Err Disk → HasRisen (D.faults disk.old) (D.faults disk.new) }
        ensures later { D.faults disk.old ≤ D.faults disk.new }
        ensures size { D.size disk.new ≡ D.size disk.old }
        ensures keeps { D.keeps disk.new ≡ D.keeps disk.old }
    {
        if batch.len() > 0 {
            self.flush_batch(disk, batch.as_slice())?;
        }
        Ok(())
    }

    /// Writes the images of all dirty pages by eights.
    fn flush_all<D: Disk>(&mut self, disk: &mut D) -> Result<(), FlushFault>
        requires places { 33088 ≤ D.size disk.old }
        requires keeps { IsTrue (D.keeps disk.old) }
        ensures flushed { OnOk result (Flushed D.size D.keeps D.reads D.may_hold D.did disk.old (slot self.old) (by_eights (dirty_pages self.old.count (slot self.old))) disk.new (slot self.new)) }
        ensures fault { IfErr result (IsFlushFault (told_by D.keeps D.reads disk.old) self.old) }
        ensures broken { result ≡ Err Disk → BreaksOff D.size D.keeps D.reads D.may_hold D.did disk.old (batches self.old) disk.new }
        ensures count { self.new.count ≡ self.old.count }
        ensures applied { self.new.applied ≡ self.old.applied }
        ensures kept { StayKept (slot self.old) (slot self.new) }
        ensures cause { result ≡ Err Disk → HasRisen (D.faults disk.old) (D.faults disk.new) }
        ensures later { D.faults disk.old ≤ D.faults disk.new }
        ensures size { D.size disk.new ≡ D.size disk.old }
        ensures keeps { D.keeps disk.new ≡ D.keeps disk.old }
    {
        let _ = &self.places;
        let mut batch = PageBatch::empty();
        let pages = self.count();
        for place in 0..pages {
            self.visit(disk, &mut batch, 16 + place)?;
        }
        self.finish(disk, &batch)?;
        Ok(())
    }

    /// Writes the images of all dirty pages, in rising order and by eights. A sync ends each batch. Then no page is dirty.
    pub fn flush<D: Disk>(&mut self, disk: &mut D) -> Result<(), FlushFault>
        requires places { 33088 ≤ D.size disk.old }
        requires keeps { IsTrue (D.keeps disk.old) }

        // After `Ok` each page is clean, and what is known of it is as it was.
        ensures clean { OnOk result ((page : ℕ) → is_page self.old page ≡ true → is_dirty self.new page ≡ false) }
        ensures known { OnOk result ((page : ℕ) → is_page self.old page ≡ true
            → known_of (told_by D.keeps D.reads disk.new) self.new page ≡ known_of (told_by D.keeps D.reads disk.old) self.old page) }

        // Each page that was dirty has a new image, which says its value. Each other data page has the image that it had,
        // and each sector outside of the dirty data pages what it had.
        ensures cells { OnOk result ((page : ℕ) → is_page self.old page ≡ true → page_cells (D.reads disk.new) page
            ≡ (if is_dirty self.old page then written_cells (page_cells (D.reads disk.old) page) else page_cells (D.reads disk.old) page)) }
        ensures images { OnOk result ((page : ℕ) (v : PageValue) → is_page self.old page ≡ true → is_dirty self.old page ≡ true → known_of (told_by D.keeps D.reads disk.old) self.old page ≡ Value v
            → v.page ≡ page → IsInRange v → in_home (Some (image_of (D.reads disk.new))) page ≡ Value v) }
        ensures other_images { OnOk result ((page : ℕ) → is_page self.old page ≡ true → is_dirty self.old page ≡ false → image_of (D.reads disk.new) page ≡ image_of (D.reads disk.old) page) }
        ensures others { OnOk result ((at : ℕ) → ((page : ℕ) → is_page self.old page ≡ true → is_dirty self.old page ≡ true → IsOutside page at) → D.reads disk.new at ≡ D.reads disk.old at) }

        // A crash leaves that, unless no page was dirty and a crash might have left something else before.
        ensures durable { OnOk result ((((page : ℕ) → is_page self.old page ≡ true → is_dirty self.old page ≡ false) → Only (D.reads disk.old) (D.may_hold disk.old))
            → Only (D.reads disk.new) (D.may_hold disk.new)) }

        // The disk took the batches; or it took some, and failed on the way of the next one.
        ensures calls { OnOk result (TakesBatches D.size D.keeps D.reads D.may_hold D.did disk.old (batches self.old) disk.new) }
        ensures broken { result ≡ Err Disk → BreaksOff D.size D.keeps D.reads D.may_hold D.did disk.old (batches self.old) disk.new }
        ensures fault { IfErr result (IsFlushFault (told_by D.keeps D.reads disk.old) self.old) }
        ensures cause { result ≡ Err Disk → HasRisen (D.faults disk.old) (D.faults disk.new) }

        // Whatever is answered, what memory keeps of the pages' values stays.
        ensures values { StayKept (slot self.old) (slot self.new) }
        ensures count { self.new.count ≡ self.old.count }
        ensures applied { self.new.applied ≡ self.old.applied }
        ensures later { D.faults disk.old ≤ D.faults disk.new }
        ensures size { D.size disk.new ≡ D.size disk.old }
        ensures keeps { D.keeps disk.new ≡ D.keeps disk.old }
    {
        self.flush_all(disk)?;
        Ok(())
    }
}
