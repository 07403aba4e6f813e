//! Commits pages to a file many times: the words are the file's path, how many commits, and how many pages each.
//! `bench/commit.sh` times it.
#![tactic(auto)]

ghost use Rattle.std.specs.Prelude.{◌≤◌};
ghost use Rattle.frame_pool.specs.declared.pool.TheConstants.{FRAMES};

use flash_core::{FileFlash, Flash, Page};
use frame_pool::FRAMES;
use page_journal::PageStore;
use std::alloc::Global;
use std::env;
use std::process::ExitCode;

fn main(rt: HostRuntime) -> ExitCode {
    let Ok(mut words) = env::args(&rt) else {
        return ExitCode::from(1);
    };
    let _program = words.next();
    let (Some(path), Some(count), Some(pages), None) = (
        words.next(),
        words.next(),
        words.next(),
        words.next(),
    ) else {
        return ExitCode::from(1);
    };
    let (Ok(count), Ok(pages)) = (count.as_str().parse::<u32>(), pages.as_str().parse::<u16>())
    else {
        return ExitCode::from(1);
    };
    if usize::from(pages) > FRAMES {
        return ExitCode::from(1);
    }
    let flash = FileFlash::new(&rt, path.as_str());
    if commits(rt.alloc(), flash, count, pages) {
        ExitCode::from(0)
    } else {
        ExitCode::from(3)
    }
}

/// Commits so many pages, so many times. Answers whether each commit was done.
fn commits<F: Flash + Drop>(alloc: Global, flash: F, count: u32, pages: u16) -> bool
    requires { pages ≤ FRAMES }
{
    let Ok(mut store) = PageStore::mount(alloc, flash) else {
        return false;
    };
    if store.settle().is_err() {
        return false;
    }
    for turn in 0..count {
        let page = Page {
            bytes: [(turn % 251) as u8; 256],
        };
        for number in 0..pages {
            store.stage(number, &page);
        }
        if store.commit().is_err() {
            return false;
        }
    }
    true
}
