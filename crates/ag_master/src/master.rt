//! What a replica keeps in its master.
use ag_model::page_set::PageSet;

/// What a replica has to know at its start, beside its log and its pages.
#[derive(Clone, Copy, Debug)]
pub struct Master {
    /// The format of the replica's sectors, which is 1.
    pub format: u16,
    /// 0 where it follows or leads, 3 where it reverts, 4 where it is still initialising.
    pub state: u8,
    /// The incarnation: past the cut, a block of the log counts only with this one or a later one.
    pub incarnation: u64,
    /// The term that it followed last.
    pub term: u64,
    /// The LSN up to which blocks of older incarnations count.
    pub cut: u64,
    /// The LSN up to which the log has to be there before reverting is done.
    pub undo: u64,
    /// The LSN from which redo starts.
    pub redo: u64,
    /// How many pages the database has.
    pub pages: u16,
    /// The replica's number.
    pub replica: u8,
    /// The pages whose images are foreign: they have records of a log that was given up.
    pub foreign: PageSet,
}
