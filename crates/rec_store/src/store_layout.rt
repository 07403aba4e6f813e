//! The layouts of store pages.

ghost use Rattle.std.specs.Prelude.{◌≡◌, ◌↔◌, IfNone, IfSome, IsTrue};
ghost use Rattle.rec_store.specs.Prelude.{FitsLayout, IsShort, layout_code, things_in};
ghost use Rattle.std.specs.Prelude.{All};

use card_types::KeyRec;

/// The layout of a card's store pages. Each thing stands in the same place in both.
#[derive(Clone, Copy, Debug, PartialEq, Eq)]
pub enum Layout {
    /// Each key has 16 bytes.
    Second = 0x02,

    /// Keys have 16, 24 or 32 bytes.
    Third = 0x03,
}

impl Layout {
    /// The layout with this number.
    pub fn from_code(code: u8) -> Option<Layout>
        ensures some { IfSome result (λ layout. layout_code layout ≡ code) }
        ensures none { IfNone result ((layout : Layout) → layout_code layout ≡ code → ⊥) }
        ensures back { (layout : Layout) → layout_code layout ≡ code → result ≡ Some layout }
    {
        match code {
            0x02 => Some(Layout::Second),
            0x03 => Some(Layout::Third),
            _ => None,
        }
    }

    /// Its number.
    pub fn code(&self) -> u8
        ensures { result ≡ layout_code self.now }
    {
        *self as u8
    }
}

/// Whether the keys are such as a layout has.
pub fn fits_layout(layout: Layout, keys: &[Option<KeyRec>]) -> bool
    ensures { IsTrue result ↔ FitsLayout layout keys.now }
{
    match layout {
        Layout::Second => are_short(keys),
        Layout::Third => true,
    }
}

// Whether each key has 16 bytes.
fn are_short(keys: &[Option<KeyRec>]) -> bool
    ensures { IsTrue result ↔ All IsShort (things_in keys.now) }
{
    for slot in keys {
        if !is_short(slot) {
            return false;
        }
    }
    true
}

fn is_short(slot: &Option<KeyRec>) -> bool
    ensures { IsTrue result ↔ IfSome slot.now IsShort }
{
    match slot {
        Some(key) => key.bytes.len() == 16,
        None => true,
    }
}
