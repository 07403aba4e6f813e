//! INSTALL (GlobalPlatform Card Specification 2.3.1, 11.5): P1 tells which of its forms a command has, and which request it is.

ghost use Rattle.std.proofs.Common.{inl, inr, refl};
ghost use Rattle.policy_machine.specs.declared.instruction.TheConstants.{INSTALL};
ghost use Rattle.policy_rules.specs.Prelude.{Parses, command_form, install_load, judged, managed_extradition, managed_install, managed_selectable};
ghost use Rattle.policy_rules.specs.declared.request.Request.TheVariants.{Extradite, Install, InstallLoad, MakeSelectable};

use crate::form_request::FormRequest;
use crate::request::Request;
use content_rules::{
    ExtraditionRequest, InstallRequest, LoadInstallRequest, SelectableRequest, parse_request,
};
use policy_machine::Rule;

/// Reads P1, P2 and the data field of an INSTALL.
pub(crate) fn parse_install(p1: u8, p2: u8, body: &[u8]) -> Result<Request<'_>, Rule>
    ensures { Parses INSTALL p1 p2 body.now result }
{
    match p1 {
        0x02 => match parse_request::<LoadInstallRequest>(p1, p2, body) {
            Ok(request) => Ok(Request::InstallLoad(request)),
            Err(rule) => Err(rule),
        },
        0x08 => match parse_request::<SelectableRequest>(p1, p2, body) {
            Ok(request) => Ok(Request::MakeSelectable(request)),
            Err(rule) => Err(rule),
        },
        0x10 => match parse_request::<ExtraditionRequest>(p1, p2, body) {
            Ok(request) => Ok(Request::Extradite(request)),
            Err(rule) => Err(rule),
        },
        _ => match parse_request::<InstallRequest>(p1, p2, body) {
            Ok(request) => Ok(Request::Install(request)),
            Err(rule) => Err(rule),
        },
    }
}

impl FormRequest for LoadInstallRequest<'_> {
    ghost request = { λ request. InstallLoad request };

    ghost fits = { λ these p1 p2 body is. is.short };

    ghost read = { λ these command is. is.means };

    ghost shown = { λ page tables live admitted says channels. says.load };

    ghost judges = { λ these admitted is. judged install_load (λ holds here. inr (inr (inr (inl here)))) admitted is.form refl };
}

impl FormRequest for InstallRequest<'_> {
    ghost request = { λ request. Install request };

    ghost fits = { λ these p1 p2 body is. is.short };

    ghost read = { λ these command is. is.means };

    ghost shown = { λ page tables live admitted says channels. says.load };

    ghost judges = { λ these admitted is. judged (command_form managed_install) (λ holds here. inl here) admitted is.form refl };
}

impl FormRequest for SelectableRequest<'_> {
    ghost request = { λ request. MakeSelectable request };

    ghost fits = { λ these p1 p2 body is. is.short };

    ghost read = { λ these command is. is.means };

    ghost shown = { λ page tables live admitted says channels. tt };

    ghost judges = { λ these admitted is. judged (command_form managed_selectable) (λ holds here. inr (inl here)) admitted is.form refl };
}

impl FormRequest for ExtraditionRequest<'_> {
    ghost request = { λ request. Extradite request };

    ghost fits = { λ these p1 p2 body is. is.short };

    ghost read = { λ these command is. is.means };

    ghost shown = { λ page tables live admitted says channels. tt };

    ghost judges = { λ these admitted is. judged (command_form managed_extradition) (λ holds here. inr (inr (inl here))) admitted is.form refl };
}
