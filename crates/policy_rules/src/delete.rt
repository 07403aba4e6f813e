//! DELETE (GlobalPlatform Card Specification 2.3.1, 11.2): the data field tells which of its forms a command has, and which
//! request it is.

ghost use Rattle.std.proofs.Common.{inl, inr, refl};
ghost use Rattle.policy_machine.specs.declared.instruction.TheConstants.{DELETE};
ghost use Rattle.policy_rules.specs.Prelude.{Parses, command_form, judged, managed_delete_object};
ghost use Rattle.policy_rules.specs.declared.request.Request.TheVariants.{DeleteObject};

use crate::delete_key::parse_delete_key;
use crate::form_request::FormRequest;
use crate::request::Request;
use content_rules::{DeletionRequest, parse_request};
use policy_machine::Rule;

/// Reads P1, P2 and the data field of a DELETE.
pub(crate) fn parse_delete(p1: u8, p2: u8, body: &[u8]) -> Result<Request<'_>, Rule>
    ensures { Parses DELETE p1 p2 body.now result }
{
    match parse_delete_key(p1, p2, body) {
        Ok((version, identifier)) => Ok(Request::DeleteKey {
            version,
            identifier,
        }),
        Err(_) => match parse_request::<DeletionRequest>(p1, p2, body) {
            Ok(request) => Ok(Request::DeleteObject(request)),
            Err(rule) => Err(rule),
        },
    }
}

impl FormRequest for DeletionRequest<'_> {
    ghost request = { λ request. DeleteObject request };

    ghost fits = { λ these p1 p2 body is. is.short };

    ghost read = { λ these command is. is.means };

    ghost shown = { λ page tables live admitted says channels. (says, channels) };

    ghost judges = { λ these admitted is. judged (command_form managed_delete_object) (λ holds here. inr (inl here)) admitted is.form refl };
}
