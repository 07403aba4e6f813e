//! Frames for staged pages.

use frame_pool::{FRAMES, FramePool};
use std::test::Fail;

/// Stages 30 pages whose numbers fall from `top`, each with bytes of its own, and answers how many places are wrong.
fn stage_falling(pool: &mut FramePool, top: u16) -> usize {
    let mut wrong = 0usize;
    for step in 0..30u16 {
        if pool.spare() > 0 {
            let page = pool.stage(top.wrapping_sub(step));
            if page.bytes != [0; 256] {
                wrong = wrong.wrapping_add(1);
            }
            page.bytes = [step as u8; 256];
        }
    }
    if pool.len() != FRAMES {
        return 1000;
    }
    for step in 0..30u16 {
        let number = top.wrapping_sub(step);
        let (at, page) = pool.at(step as usize);
        if at != number || page.bytes != [step as u8; 256] {
            wrong = wrong.wrapping_add(1);
        }
        if pool.get(number).copied() != Some(*page) {
            wrong = wrong.wrapping_add(1);
        }
    }
    wrong
}

/// Clears the frames, and answers how many are staged and spare, and whether a page is staged.
fn clear(pool: &mut FramePool, page: u16) -> (usize, usize, bool) {
    pool.clear();
    (pool.len(), pool.spare(), pool.get(page).is_some())
}

#[test]
fn thirty_pages_are_staged_cleared_and_thirty_others_staged(rt: HostRuntime) -> Result<(), Fail> {
    let mut pool = FramePool::new(rt.alloc())?;
    let first = stage_falling(&mut pool, 44);
    let cleared = clear(&mut pool, 44);
    let second = stage_falling(&mut pool, 607);
    assert!(rt; (first, cleared, second, pool.get(44).is_some()) == (0, (0, 30, false), 0, false));
    Ok(())
}
