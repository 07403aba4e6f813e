//! CAP files.

ghost use Rattle.std.specs.Prelude.{◌≡◌, ◌↔◌, ℕ, List, Err, IfErr, IfOk, IsOkAnd, length};
ghost use Rattle.cap_pack.specs.Cap.{CapOf, HasApplets, ListsApplets, NoneRepeats};
ghost use Rattle.cap_pack.specs.Components.{Component};
ghost use Rattle.cap_pack.specs.Held.{IsCap};
ghost use Rattle.cap_pack.specs.Outlines.{Outlines};
ghost use Rattle.cap_pack.specs.Stops.{ListsNoneAt, StopsPacking};

use crate::applets::{self, AppletList};
use crate::header::package;
use crate::limit::CAP_LIMIT;
use crate::outline::Outline;
use crate::stop::CapStop;
use card_types::Aid;

/// A CAP file: its bytes, the AID of its package, the list of its applets after their count, and that count.
#[derive(Clone, Copy)]
pub struct Cap<'a> {
    pub bytes: &'a [u8],
    pub package: Aid,
    pub applets: &'a [u8],
    pub count: u8,
}

// The list of applets that components have, or none.
fn applet_list<'a>(outline: &Outline<'a>) -> Result<AppletList<'a>, CapStop>
    ensures list { (components : List Component) → Outlines components outline.now → NoneRepeats components
        → IfOk result (λ list. (aids : List (List ℕ)) × HasApplets aids components × (list.count ≡ length aids) × ListsApplets aids list.bytes.now) }
    ensures stop { (components : List Component) → Outlines components outline.now → NoneRepeats components
        → IfErr result (λ stop. (n : ℕ) × (stop ≡ CapStop.Applets n) × ListsNoneAt n components) }
{
    match outline.applets {
        Some(held) => match applets::read(held.content) {
            Some(list) => Ok(list),
            None => Err(CapStop::Applets(held.place)),
        },
        None => Ok(AppletList {
            count: 0,
            bytes: &[],
        }),
    }
}

// The CAP file that the bytes are, or the first cause.
fn judged(bytes: &[u8]) -> Result<Cap<'_>, CapStop>
    ensures same { IfOk result (λ cap. cap.bytes.now ≡ bytes.now) }
    ensures cap { IfOk result (λ cap. (aids : List (List ℕ)) × IsCap cap aids) }
    ensures stop { IfErr result (StopsPacking bytes.now) }
{
    if bytes.len() > CAP_LIMIT {
        return Err(CapStop::Large);
    }
    let outline = match Outline::of(bytes) {
        Ok(outline) => outline,
        Err(place) => return Err(CapStop::Component(place)),
    };
    let Some(package) = package(bytes) else {
        return Err(CapStop::Header);
    };
    if let Some(place) = outline.twice {
        return Err(CapStop::Twice(place));
    }
    let list = applet_list(&outline)?;
    Ok(Cap {
        bytes,
        package,
        applets: list.bytes,
        count: list.count,
    })
}

/// Reads a CAP file, whole. Of several causes of a refusal the first is given, in the order of `CapStop`.
pub fn read(bytes: &[u8]) -> Result<Cap<'_>, CapStop>
    ensures same { IfOk result (λ cap. cap.bytes.now ≡ bytes.now) }
    ensures cap { IfOk result (λ cap. (aids : List (List ℕ)) × IsCap cap aids) }
    ensures only { (file : List ℕ) (aids : List (List ℕ)) → CapOf bytes.now file aids
        → IsOkAnd result (λ cap. (cap.package ≡ file) × IsCap cap aids) }
    ensures stop { (stop : CapStop) → (result ≡ Err stop) ↔ StopsPacking bytes.now stop }
{
    judged(bytes)
}
