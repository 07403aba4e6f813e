//! Which rule of the policy refuses a command of a card, and what an accepted one is about, by slots. The rules and what they mean
//! stand in `policy_machine`.
#![tactic(auto)]

mod card_status;
mod delete;
mod delete_key;
mod entry_status;
mod external_authenticate;
mod form_request;
mod get_data;
mod get_status;
mod initialize_update;
mod install;
mod load;
mod manage_channel;
mod own_rules;
mod put_key;
mod request;
mod select;
mod set_status;
mod store_data;

pub use card_status::judge_card_status;
pub use content_rules::{
    DeletionRequest, Extradition, ExtraditionRequest, InstallRequest, LoadInstallRequest,
    LoadRequest, SelectableRequest, judge_load, judge_loaded, judge_loaded_by,
};
pub use delete_key::judge_delete_key;
pub use entry_status::{EntryStatusRequest, StatusChange, judge_entry_status};
pub use form_request::{FormRequest, judge_form};
pub use get_data::{Datum, judge_get_data};
pub use get_status::{ListRequest, judge_status, next_shown};
pub use initialize_update::{OfferedSet, judge_initialize_update};
pub use manage_channel::judge_more_channel;
pub use own_rules::judge;
pub use policy_machine::{
    CHANNELS, Class, EXTERNAL_AUTHENTICATE, GET_DATA, GET_STATUS, INITIALIZE_UPDATE, LOAD,
    MANAGE_CHANNEL, Rule, RuleDK, RuleDO, RuleEA, RuleEX, RuleG, RuleGD, RuleGS, RuleII, RuleIL,
    RuleIU, RuleLO, RuleM, RuleMC, RuleMS, RulePK, RulePS, RuleRC, RuleSC, RuleSD, RuleSE, RuleSS,
    RuleTK, SELECT, channel_of, is_plain_management, is_protected,
};
pub use policy_slots::{
    Approving, Judged, JudgedRequest, KeyName, Live, LoadName, Place, Signed, holds, judge_request,
    nearest_with_key, next_key, session_set,
};
pub use put_key::{PutKeys, SealedKey, judge_put_keys, judge_put_versions};
pub use request::{Request, parse};
pub use select::judge_select;
pub use store_data::judge_store_data;
