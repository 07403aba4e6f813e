//! Load pages that are written before a commit.

use flash_core::{Flash, FlashFailed, MemFlash, Page};
use page_journal::PageStore;
use std::alloc::Global;
use std::test::Fail;

#[test]
fn a_commit_keeps_the_load_pages(rt: HostRuntime) -> Result<(), Fail> {
    let (done, mut flash) = loaded(rt.alloc(), MemFlash::new(rt.alloc(), 99)?)?;
    flash.power_cut(2);
    let bytes = [
        flash.page(96).bytes[0],
        flash.page(607).bytes[255],
        flash.page(3).bytes[9],
    ];
    assert!(rt; (done, bytes) == (true, [7, 8, 9]));
    Ok(())
}

/// Writes two load pages, stages a page, reads it and commits.
fn loaded<F: Flash + Drop>(alloc: Global, flash: F) -> Result<(bool, F), FlashFailed> {
    let mut store = match PageStore::mount(alloc, flash) {
        Ok(store) => store,
        Err(_) => return Err(FlashFailed),
    };
    store.settle()?;
    store.write_free(96, &Page { bytes: [7; 256] })?;
    store.write_free(607, &Page { bytes: [8; 256] })?;
    store.stage(3, &Page { bytes: [9; 256] });
    let mut into = Page { bytes: [0; 256] };
    store.read(3, &mut into)?;
    let read = into.bytes[0] == 9 && store.staged() == 1;
    store.commit()?;
    Ok((read && store.settled(), store.into_flash()))
}
