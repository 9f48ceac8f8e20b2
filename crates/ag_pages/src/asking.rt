//! What the pages are asked, one by one.
ghost use Rattle.std.specs.Prelude.{◌≡◌, ◌≤◌, true, Err, IfOk, OnOk, IfErr};
ghost use Rattle.ag_model.specs.Rows.{page_of};
ghost use Rattle.ag_outside.specs.Counts.{HasRisen};
ghost use Rattle.ag_stripe.specs.declared.fault.StripeFault.TheVariants.{Home};
ghost use Rattle.ag_stripe.specs.Answers.{IsRow, IsRowFault, IsImageOf, IsImageFault};
ghost use Rattle.ag_stripe.specs.Known.{Says};
ghost use Rattle.ag_stripe.specs.Known.Known.{Value};
ghost use Rattle.ag_stripe.specs.Reading.{IsFaultOf};
ghost use Rattle.ag_pages.specs.Views.{is_page, known_of, told_by};
ghost use Rattle.ag_pages.specs.Reading.{WasOnlyRead, OnlyReadsIn};

use crate::lending;
use crate::pages::Pages;
use crate::places::{put_in, take_out};
use ag_model::page::page_of;
use ag_model::value::{PageValue, Row};
use ag_outside::disk::Disk;
use ag_page::Image;
use ag_stripe::StripeFault;

impl Pages {
    /// The row of a key at a snapshot, an LSN. TooOld says that the snapshot is below the horizon of the key's page.
    pub fn row_at<D: Disk>(
        &mut self,
        disk: &mut D,
        key: u32,
        snapshot: u64,
    ) -> Result<Row, StripeFault>
        requires places { 33088 ≤ D.size disk.old }
        ensures row { IfOk result (IsRow key snapshot (known_of (told_by D.keeps D.reads disk.old) self.old (page_of self.old.count key))) }
        ensures fault { IfErr result (IsRowFault (page_of self.old.count key) snapshot (known_of (told_by D.keeps D.reads disk.old) self.old (page_of self.old.count key))) }
        ensures reads { OnlyReadsIn (told_by D.keeps D.reads disk.old) self.old self.new }
        ensures disk { WasOnlyRead D.size D.keeps D.reads D.may_hold D.did disk.old disk.new }
        ensures later { D.faults disk.old ≤ D.faults disk.new }
        ensures cause { result ≡ Err Home → HasRisen (D.faults disk.old) (D.faults disk.new) }
    {
        let _ = &self.places;
        let number = (page_of(self.count, key) % 16) as u8;
        let taken = take_out(&mut self.places, number);
        let (back, answer) = lending::row_at(taken, disk, key, snapshot);
        put_in(&mut self.places, number, back);
        answer
    }

    /// The value of a page.
    pub fn value_of<D: Disk>(&mut self, disk: &mut D, page: u16) -> Result<PageValue, StripeFault>
        requires page { is_page self.old page ≡ true }
        requires places { 33088 ≤ D.size disk.old }
        ensures value { IfOk result (λ v. Says (known_of (told_by D.keeps D.reads disk.old) self.old page) (Value v)) }
        ensures fault { IfErr result (IsFaultOf page (known_of (told_by D.keeps D.reads disk.old) self.old page)) }
        ensures reads { OnlyReadsIn (told_by D.keeps D.reads disk.old) self.old self.new }
        ensures disk { WasOnlyRead D.size D.keeps D.reads D.may_hold D.did disk.old disk.new }
        ensures later { D.faults disk.old ≤ D.faults disk.new }
        ensures cause { result ≡ Err Home → HasRisen (D.faults disk.old) (D.faults disk.new) }
    {
        let number = (page % 16) as u8;
        let taken = take_out(&mut self.places, number);
        let (back, answer) = lending::value_of(taken, disk, page);
        put_in(&mut self.places, number, back);
        answer
    }

    /// The image of a page, with the mark 0 in each sector. Unlawful also says that the value fits no image.
    pub(crate) fn image_of<D: Disk>(
        &mut self,
        disk: &mut D,
        page: u16,
        out: &mut Image,
    ) -> Result<(), StripeFault>
        requires page { is_page self.old page ≡ true }
        requires places { 33088 ≤ D.size disk.old }
        ensures image { OnOk result (IsImageOf (known_of (told_by D.keeps D.reads disk.old) self.old page) out.new) }
        ensures fault { IfErr result (IsImageFault page (known_of (told_by D.keeps D.reads disk.old) self.old page)) }
        ensures reads { OnlyReadsIn (told_by D.keeps D.reads disk.old) self.old self.new }
        ensures disk { WasOnlyRead D.size D.keeps D.reads D.may_hold D.did disk.old disk.new }
        ensures later { D.faults disk.old ≤ D.faults disk.new }
        ensures cause { result ≡ Err Home → HasRisen (D.faults disk.old) (D.faults disk.new) }
    {
        let number = (page % 16) as u8;
        let taken = take_out(&mut self.places, number);
        let (back, answer) = lending::image_of(taken, disk, page, out);
        put_in(&mut self.places, number, back);
        answer
    }
}
