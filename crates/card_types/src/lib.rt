//! The values that a GlobalPlatform card keeps of its applications and domains, and their codes.
#![tactic(auto)]

mod aid;
mod card_life;
mod data_objects;
mod factory;
mod found;
mod key_set;
mod laws;
mod level;
mod life;
mod limits;
mod literals;
mod privileges;
mod search;
mod tables;

pub use aid::Aid;
pub use card_life::CardLife;
pub use data_objects::{
    CARD_DATA, CARD_SPECIFIC, DIVERSIFICATION, IMAGE_NUMBER, ISSUER_NUMBER, is_object,
};
pub use factory::{
    FACTORY_FILE, FACTORY_KEY, FACTORY_MODULE, FACTORY_VERSION, ISSUER, factory_file, factory_key,
    issuer_domain,
};
pub use found::{Following, Found, Kind, find, next_after};
pub use key_set::{KeySet, find_key, set_of, set_with};
pub use laws::{additions_keep_order, changes_keep_order, moves_keep_order, removals_keep_order};
pub use level::Level;
pub use life::{Life, LifeMark};
pub use limits::{
    COUNTER_LIMIT, DOMAIN_KEYS, ENTRIES, FILE_LIMIT, FILES, KEYS, LOAD_PAGES, OBJECTS,
    RECEIPT_LIMIT,
};
pub use literals::constants;
pub use privileges::Privileges;
pub use search::{InSlot, Search, Wants, first_free, first_that, least};
pub use tables::{Entry, ISSUER_SLOT, KeyRec, LoadFile, Object, Tables, in_slot};
