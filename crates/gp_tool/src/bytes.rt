//! Which bytes these are.

ghost use Rattle.std.specs.Prelude.{◌≡◌, ◌∷◌, ◌↔◌, ℕ, List, IsTrue};

/// Whether they begin with this one.
pub fn begins_with(bytes: &[u8], first: u8) -> bool
    ensures { IsTrue result ↔ ((rest : List ℕ) × (bytes.now ≡ first ∷ rest)) }
{
    bytes.first() == Some(&first)
}

/// Whether they are the others.
pub fn is_same(bytes: &[u8], others: &[u8]) -> bool
    ensures { IsTrue result ↔ (bytes.now ≡ others.now) }
{
    bytes == others
}
