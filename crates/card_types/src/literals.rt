//! The numbers that definitions read from the code, each against its literal.

ghost use Rattle.std.specs.Prelude.{◌≡◌, ◌∷◌, []};
ghost use Rattle.card_types.specs.declared.data_objects.TheConstants.{CARD_DATA, CARD_SPECIFIC, DIVERSIFICATION, IMAGE_NUMBER, ISSUER_NUMBER};
ghost use Rattle.card_types.specs.declared.factory.TheConstants.{ISSUER, FACTORY_FILE, FACTORY_MODULE, FACTORY_PRIVILEGES, FACTORY_VERSION, FACTORY_KEY};
ghost use Rattle.card_types.specs.declared.limits.TheConstants.{ENTRIES, FILES, KEYS, DOMAIN_KEYS, OBJECTS, LOAD_PAGES, FILE_LIMIT, COUNTER_LIMIT, RECEIPT_LIMIT};
ghost use Rattle.card_types.specs.declared.tables.TheConstants.{ISSUER_SLOT};

/// How much a card has room for, the tags of data objects, and the names, privileges and keys of the factory card.
pub fn constants()
    ensures entries { ENTRIES ≡ 32 }
    ensures files { FILES ≡ 16 }
    ensures keys { KEYS ≡ 48 }
    ensures domain_keys { DOMAIN_KEYS ≡ 12 }
    ensures objects { OBJECTS ≡ 16 }
    ensures load_pages { LOAD_PAGES ≡ 512 }
    ensures file_limit { FILE_LIMIT ≡ 32768 }
    ensures counter_limit { COUNTER_LIMIT ≡ 0xFFFFFF }
    ensures receipt_limit { RECEIPT_LIMIT ≡ 0xFFFF }
    ensures issuer_number { ISSUER_NUMBER ≡ 0x42 }
    ensures image_number { IMAGE_NUMBER ≡ 0x45 }
    ensures card_data { CARD_DATA ≡ 0x66 }
    ensures diversification { DIVERSIFICATION ≡ 0xCF }
    ensures card_specific { CARD_SPECIFIC ≡ 0x5F50 }
    ensures issuer_slot { ISSUER_SLOT ≡ 0 }
    ensures issuer { ISSUER ≡ 0xA0 ∷ 0x00 ∷ 0x00 ∷ 0x01 ∷ 0x51 ∷ 0x00 ∷ 0x00 ∷ 0x00 ∷ [] }
    ensures factory_file { FACTORY_FILE ≡ 0xA0 ∷ 0x00 ∷ 0x00 ∷ 0x01 ∷ 0x51 ∷ 0x53 ∷ 0x50 ∷ [] }
    ensures factory_module { FACTORY_MODULE ≡ 0xA0 ∷ 0x00 ∷ 0x00 ∷ 0x01 ∷ 0x51 ∷ 0x53 ∷ 0x50 ∷ 0x41 ∷ [] }
    ensures factory_privileges { FACTORY_PRIVILEGES ≡ 0x9EFE80 }
    ensures factory_version { FACTORY_VERSION ≡ 0x30 }
    ensures factory_key { FACTORY_KEY ≡ 0x40 ∷ 0x41 ∷ 0x42 ∷ 0x43 ∷ 0x44 ∷ 0x45 ∷ 0x46 ∷ 0x47
        ∷ 0x48 ∷ 0x49 ∷ 0x4A ∷ 0x4B ∷ 0x4C ∷ 0x4D ∷ 0x4E ∷ 0x4F ∷ [] }
{}
