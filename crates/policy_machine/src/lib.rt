//! The policy machine of a card in words: its states, its rules, what each command does, and the laws of all that.
#![tactic(auto)]

mod card_status;
mod channels;
mod class;
mod delegation;
mod delete_key;
mod delete_object;
mod entry_status;
mod external_authenticate;
mod extradition;
mod get_data;
mod get_status;
mod initialize_update;
mod install_application;
mod install_load;
mod instruction;
mod laws;
mod literals;
mod load;
mod make_selectable;
mod manage_channel;
mod management;
mod put_key;
mod refusal;
mod rule;
mod select;
mod store_data;

pub use apdu_core::channel_of;
pub use card_status::RuleSC;
pub use channels::CHANNELS;
pub use class::{Class, is_plain_management, is_protected};
pub use delegation::{RuleRC, RuleTK};
pub use delete_key::RuleDK;
pub use delete_object::RuleDO;
pub use entry_status::RuleSS;
pub use external_authenticate::RuleEA;
pub use extradition::RuleEX;
pub use get_data::RuleGD;
pub use get_status::RuleGS;
pub use initialize_update::RuleIU;
pub use install_application::RuleII;
pub use install_load::RuleIL;
pub use instruction::{
    DELETE, EXTERNAL_AUTHENTICATE, GET_DATA, GET_STATUS, INITIALIZE_UPDATE, INSTALL, LOAD,
    MANAGE_CHANNEL, PUT_KEY, SELECT, SET_STATUS, STORE_DATA, instruction_bytes,
};
pub use laws::{
    changes_are_opened, numbers_rise, one_form, one_outcome, others_are_changes, own_rules_decide,
    places_are_forgotten, refusals_drop_offers, steps_keep_sound, trees_stay,
};
pub use literals::{classes, constants, key_fields, status_words};
pub use load::RuleLO;
pub use make_selectable::RuleMS;
pub use manage_channel::RuleMC;
pub use management::RuleM;
pub use put_key::RulePK;
pub use refusal::Refusal;
pub use rule::{Rule, RuleG, RulePS};
pub use select::RuleSE;
pub use store_data::RuleSD;
