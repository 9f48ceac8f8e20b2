//! A master saved and loaded, and sectors that are none.
use super::{Loaded, Master, load, save};
use ag_model::page_set::PageSet;
use ag_outside::mem_disk::MemDisk;
use ag_outside::scripted::Scripted;
use std::test::Fail;

#[test]
fn a_master_is_saved_and_loaded(rt: HostRuntime) -> Result<(), Fail> {
    let alloc = rt.alloc();
    let mut disk = Scripted::new(alloc, MemDisk::new(alloc, Vec::new(alloc), true));
    assert!(rt; matches!(load(&mut disk), Ok(Loaded::Fresh)));
    let m = Master {
        format: 1,
        state: 3,
        incarnation: 2,
        term: 7,
        cut: 5,
        undo: 9,
        redo: 1,
        pages: 128,
        replica: 2,
        foreign: PageSet::empty(),
    };
    assert_eq!(rt; save(&mut disk, &m), Ok(()));
    assert!(rt;
        matches!(load(&mut disk), Ok(Loaded::Is(read)) if read.term == 7 && read.state == 3)
    );
    assert_eq!(rt; disk.poke(0, &[9; 512]), Ok(()));
    assert!(rt; matches!(load(&mut disk), Ok(Loaded::Other)));
    Ok(())
}
