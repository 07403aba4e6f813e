//! A pool of `FRAMES` frames for staged pages.
//!
//! The frames stand in one block, which is taken when the pool is made and freed once, at its end: no call after
//! `new` can want memory. Each frame has a page's number, its bytes, and the link to the frame that is staged after
//! it. Contracts see a list of page numbers with their bytes, no number twice. `stage` lends the bytes of a page for
//! writing where they lie.
#![tactic(auto)]

mod pool;

pub use pool::{FRAMES, FramePool};
