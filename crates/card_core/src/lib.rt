//! A card: what it keeps, and what it does with each command (GlobalPlatform Card Specification 2.3.1, chapters 6 and 11).
//!
//! A card answers any bytes by a reply, which ends in a status word. It takes no memory for that.
#![tactic(auto)]

mod admit;
mod aes_kind;
mod aes_offer;
mod aes_session;
mod begin_load;
mod card;
mod card_status;
mod channel_session;
mod channels;
mod commit;
mod confirm;
mod confirmed_request;
mod delete_key;
mod delete_object;
mod digest;
mod entry_status;
mod external_authenticate;
mod extradition;
mod formatting;
mod get_data;
mod get_status;
mod initialize_update;
mod install_application;
mod literals;
mod load;
mod loaded_file;
mod loading;
mod make_selectable;
mod manage_channel;
mod managed_request;
mod management;
mod opened_key;
mod perform;
mod power;
mod put_key;
mod read_request;
mod reply;
mod secure_messaging;
mod select;
mod serve;
mod status_template;
mod store_data;
mod workspace;

pub use card::Card;
pub use formatting::format;
pub use literals::constants;
pub use power::{PowerCause, PowerError};
pub use reply::REPLY_LIMIT;
