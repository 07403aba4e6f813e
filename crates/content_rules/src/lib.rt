//! Which rule refuses a command of card content management, and what an accepted one is about, by slots: INSTALL in its four forms, LOAD,
//! and DELETE of an application, a security domain or an Executable Load File. The rules stand in `policy_machine`.
#![tactic(auto)]

mod delete_object;
mod extradition;
mod in_use;
mod install_application;
mod install_fields;
mod install_load;
mod load;
mod make_selectable;
mod parsed_request;

pub use delete_object::DeletionRequest;
pub use extradition::{Extradition, ExtraditionRequest};
pub use install_application::InstallRequest;
pub use install_fields::InstallFields;
pub use install_load::LoadInstallRequest;
pub use load::{LoadRequest, judge_load, judge_loaded, judge_loaded_by, parse_load};
pub use make_selectable::SelectableRequest;
pub use parsed_request::{ParsedRequest, parse_request};
