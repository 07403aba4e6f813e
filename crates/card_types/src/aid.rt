//! Application identifiers (ISO/IEC 7816-4:2013, chapter 12).
ghost use Rattle.std.specs.Prelude.{◌≡◌, ◌↔◌, IsTrue, IfSome, IfNone, OnSome, nat_eq};
ghost use Rattle.std.specs.Ordering.{nat_cmp};
ghost use Rattle.std.specs.Cmp;
ghost use Rattle.std.specs.Cmp.Lexicographic.{pointwise, nat_list_eq_equiv, slice_cmp};
ghost use Rattle.card_types.specs.Aid.{IsAid};

use std::cmp::Ordering;
use std::marker::Model;

/// The AID of an application, a Module or an Executable Load File: 5 to 16 bytes. The bytes past its
/// length are 0.
#[derive(Clone, Copy, Debug)]
pub struct Aid {
    padded: [u8; 16],
    len: u8,
}

impl Model for Aid {
    ghost use Rattle.std.specs.Prelude.{ℕ, ◌-◌, List, ◌++◌, length, take, replicate};

    ghost Value = { List ℕ };

    ghost use Rattle.card_types.specs.AidFields.{IsPadded};

    ghost view = { λ a. take a.len a.padded };

    ghost invariant = { IsPadded };

    ghost inverse = { λ bytes. record { padded = bytes ++ replicate (16 - length bytes) 0; len = length bytes } };

    ghost use Rattle.card_types.specs.AidFacts.{length-view, padded-view};

    ghost inverse_ok = { λ a h i. record { padded = padded-view a h i; len = length-view a h i } };
}

impl Aid {
    /// The AID with these bytes.
    pub fn new(bytes: &[u8]) -> Option<Aid>
        ensures some { IfSome result (λ aid. aid ≡ bytes.now) }
        ensures none { IfNone result (IsAid bytes.now → ⊥) }
        ensures length { OnSome result (IsAid bytes.now) }
    {
        let len = bytes.len();
        if len < 5 || len > 16 {
            return None;
        }
        let mut padded = [0; 16];
        padded[..len].copy_from_slice(bytes);
        Some(Aid {
            padded,
            len: len as u8,
        })
    }

    /// The bytes that it was made of.
    pub fn as_bytes(&self) -> &[u8]
        ensures bytes { result.now ≡ self.now }
        ensures length { IsAid self.now }
    {
        &self.padded[..usize::from(self.len)]
    }

    /// Whether it comes before the other: by their bytes, a prefix before what it begins.
    pub fn is_below(&self, other: &Aid) -> bool
        ensures { IsTrue result ↔ (slice_cmp nat_cmp self.now other.now ≡ Ordering.Less) }
    {
        self.as_bytes().cmp(other.as_bytes()) == Ordering::Less
    }
}

impl PartialEq for Aid {
    ghost eq = { λ a b. pointwise nat_eq a b };

    ghost laws = { Cmp.partial_equiv_from_equiv nat_list_eq_equiv };

    fn eq(&self, other: &Self) -> bool {
        self.as_bytes() == other.as_bytes()
    }
}

impl Eq for Aid {
    ghost laws = { nat_list_eq_equiv };
}
