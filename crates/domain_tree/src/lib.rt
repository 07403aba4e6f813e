//! Which security domains are above which. Steps from an entry to its domain lead to a root, which
//! is its own domain.
#![tactic(auto)]

mod holders;
mod laws;
mod walk;

pub use holders::nearest;
pub use laws::{
    above_added, above_changed, above_moved, above_removed, domains_stay, lines_compared,
    lines_stay,
};
pub use walk::{Wanted, above, first_above, would_loop};
