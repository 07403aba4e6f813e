//! What a command asks for.

ghost use Rattle.std.specs.Prelude.{IfOk, IfErr};
ghost use Rattle.policy_rules.specs.Prelude.{Decodes, IsBuilt, IsMalformed, Takes, form_in};

use crate::entry_status::EntryStatusRequest;
use crate::get_status::ListRequest;
use crate::put_key::PutKeys;
use crate::{
    delete, external_authenticate, get_data, get_status, initialize_update, install, load,
    manage_channel, put_key, select, set_status, store_data,
};
use card_types::Level;
use content_rules::{
    DeletionRequest, ExtraditionRequest, InstallRequest, LoadInstallRequest, LoadRequest,
    SelectableRequest,
};
use policy_machine::{
    DELETE, GET_DATA, GET_STATUS, INITIALIZE_UPDATE, INSTALL, LOAD, MANAGE_CHANNEL, PUT_KEY, Rule,
    SELECT, SET_STATUS, STORE_DATA,
};

/// The fields of a well-formed command.
#[derive(Clone, Copy, Debug)]
pub enum Request<'a> {
    /// SELECT of the entry whose AID begins so.
    Select {
        prefix: &'a [u8],
    },
    /// MANAGE CHANNEL that opens a channel.
    MoreChannel,
    /// MANAGE CHANNEL that closes a channel.
    LessChannel {
        number: u8,
    },
    /// GET DATA of a tag.
    Get {
        tag: u16,
    },
    /// INITIALIZE UPDATE with the key set of this key version number, or with any for 00.
    Initialize {
        version: u8,
        challenge: &'a [u8],
    },
    /// EXTERNAL AUTHENTICATE at a security level: the host cryptogram and the C-MAC.
    Authenticate {
        level: Level,
        proof: &'a [u8],
    },
    /// PUT KEY in the place of the keys with a key version number, or of none for 00.
    PutKey {
        replaced: u8,
        version: u8,
        keys: PutKeys<'a>,
    },
    /// STORE DATA of data objects, one after the other.
    Store {
        objects: &'a [u8],
    },
    /// DELETE of the keys with a key version number, or of the one with this key identifier.
    DeleteKey {
        version: u8,
        identifier: Option<u8>,
    },
    /// DELETE of an application, a security domain or an Executable Load File.
    DeleteObject(DeletionRequest<'a>),
    /// INSTALL [for install], and [for install and make selectable].
    Install(InstallRequest<'a>),
    /// INSTALL [for make selectable].
    MakeSelectable(SelectableRequest<'a>),
    /// INSTALL [for extradition].
    Extradite(ExtraditionRequest<'a>),
    /// INSTALL [for load].
    InstallLoad(LoadInstallRequest<'a>),
    /// SET STATUS of the card, to the life cycle state with this code.
    CardStatus {
        life: u8,
    },
    /// SET STATUS of an application or a security domain.
    EntryStatus(EntryStatusRequest),
    /// LOAD.
    Load(LoadRequest<'a>),
    /// GET STATUS.
    List(ListRequest<'a>),
}

/// The request of a command, or the first of the rules on its form that fails.
pub fn parse(ins: u8, p1: u8, p2: u8, body: &[u8]) -> Result<Request<'_>, Rule>
    requires { IsBuilt ins }
    ensures form { IfOk result (λ request. Takes (form_in request) ins p1 p2 body.now) }
    ensures means { IfOk result (λ request. Decodes request p1 p2 body.now) }
    ensures refused { IfErr result (IsMalformed ins p1 p2 body.now) }
{
    match ins {
        SELECT => select::parse_select(p1, p2, body),
        MANAGE_CHANNEL => manage_channel::parse_manage_channel(p1, p2, body),
        GET_DATA => get_data::parse_get_data(p1, p2, body),
        INITIALIZE_UPDATE => initialize_update::parse_initialize_update(p1, p2, body),
        PUT_KEY => put_key::parse_put_key(p1, p2, body),
        STORE_DATA => store_data::parse_store_data(p1, p2, body),
        DELETE => delete::parse_delete(p1, p2, body),
        INSTALL => install::parse_install(p1, p2, body),
        LOAD => load::parse_load(p1, p2, body),
        SET_STATUS => set_status::parse_set_status(p1, p2, body),
        GET_STATUS => get_status::parse_get_status(p1, p2, body),
        _ => external_authenticate::parse_external_authenticate(p1, p2, body),
    }
}
