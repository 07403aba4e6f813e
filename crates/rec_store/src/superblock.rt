//! The superblock.

ghost use Rattle.std.specs.Prelude.{IfOk, OnErr};
ghost use Rattle.card_types.specs.declared.card_life.CardLife.{CardLife as Life};
ghost use Rattle.rec_store.specs.Superblock.{IsSuperblock};
ghost use Rattle.rec_store.specs.declared.store_layout.Layout.{Layout as LayoutOf};
ghost use Rattle.rec_store.specs.declared.store_layout.Layout.TheVariants.{Third};

use crate::slot::BadSlot;
use crate::store_layout::Layout;
use card_types::CardLife;

/// The letters GPCD.
const LETTERS: [u8; 4] = [0x47, 0x50, 0x43, 0x44];

/// The layout of a card, and its life cycle state.
pub fn read_superblock(bytes: &[u8; 256]) -> Result<(Layout, CardLife), BadSlot>
    ensures ok { IfOk result (λ read. IsSuperblock bytes.now read.0 read.1) }
    ensures err { OnErr result ((layout : LayoutOf) (life : Life) → IsSuperblock bytes.now layout life → ⊥) }
{
    if bytes[..4] != LETTERS[..] {
        return Err(BadSlot);
    }
    let layout = Layout::from_code(bytes[4]).ok_or(BadSlot)?;
    let life = CardLife::from_code(bytes[5]).ok_or(BadSlot)?;
    Ok((layout, life))
}

/// The superblock of a card in this state, in layout 03.
pub fn superblock(life: CardLife) -> [u8; 256]
    ensures { IsSuperblock result Third life }
{
    let mut bytes = [0; 256];
    bytes[..4].copy_from_slice(&LETTERS);
    bytes[4] = Layout::Third.code();
    bytes[5] = life.code();
    bytes
}
