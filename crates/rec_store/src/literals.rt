//! The places that definitions read from the code, each against its literal.

ghost use Rattle.std.specs.Prelude.{◌≡◌};
ghost use Rattle.rec_store.specs.declared.slot_places.TheConstants.{ENTRY_BYTES, FILE_BYTES, FIRST_ENTRY_PAGE, FIRST_FILE_PAGE, FIRST_KEY_PAGE, FIRST_OBJECT_PAGE, KEY_BYTES, OBJECT_BYTES};

/// Where the slots of each kind begin, and how many bytes one has.
pub fn constants()
    ensures entry { ENTRY_BYTES ≡ 64 }
    ensures file { FILE_BYTES ≡ 256 }
    ensures key { KEY_BYTES ≡ 64 }
    ensures object { OBJECT_BYTES ≡ 128 }
    ensures first_entry { FIRST_ENTRY_PAGE ≡ 1 }
    ensures first_file { FIRST_FILE_PAGE ≡ 9 }
    ensures first_key { FIRST_KEY_PAGE ≡ 25 }
    ensures first_object { FIRST_OBJECT_PAGE ≡ 37 }
{}
