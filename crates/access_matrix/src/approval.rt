//! The tokens that approve delegated commands.

ghost use Rattle.std.specs.Prelude.{◌≡◌, ◌↔◌, ◌≤◌, ℕ, List, IfSome, IsTrue, length};
ghost use Rattle.access_matrix.specs.Prelude.{ActsIn, Admitted, Holds, IsDelegated, IsInOrder, IsKeyLength, IsTokenFor, acting, delegated_management};
ghost use Rattle.tokens_receipts.specs.Token as approved;

use aes_block::{BlockKey, SealingAes128, SealingAes192, SealingAes256};
use card_types::{KeyRec, Privileges, Tables};
use policy_rules::{holds, nearest_with_key};
use tokens_receipts::token;

/// The key version number of a token key.
const TOKEN_KEY: u8 = 0x70;

// The token under a key, of whichever length.
fn token_under(key: &KeyRec, p1: u8, p2: u8, before: &[u8]) -> [u8; 16]
    requires length { IsKeyLength (length key.now.bytes.items) }
    requires short { length before.now ≤ 255 }
    ensures { result ≡ approved.token key.now.bytes.items p1 p2 before.now }
{
    match key.bytes.len() {
        16 => token(&SealingAes128::from_key(&key.bytes), p1, p2, before),
        24 => token(&SealingAes192::from_key(&key.bytes), p1, p2, before),
        _ => token(&SealingAes256::from_key(&key.bytes), p1, p2, before),
    }
}

/// The token of a command of the domain in a slot that has these bytes before it: where the command is delegated, that of the
/// domain's verifier, if there is one.
pub(crate) fn token_for(
    tables: &Tables,
    domain: u8,
    delegated: bool,
    p1: u8,
    p2: u8,
    before: &[u8],
) -> Option<[u8; 16]>
    requires in_order { IsInOrder tables.now }
    requires short { length before.now ≤ 255 }
    ensures approved { (page : ℕ → List ℕ) (admitted : Admitted) → ActsIn page tables.now domain admitted
        → IsTokenFor admitted.at.registry (acting admitted) (IsTrue delegated) p1 p2 before.now result }
    ensures size { IfSome result (λ token. length token ≡ 16) }
{
    if !delegated {
        return None;
    }
    let Some((_, key)) = nearest_with_key(tables, domain, Privileges::TOKEN_VERIFICATION, TOKEN_KEY)
    else {
        return None;
    };
    Some(token_under(key, p1, p2, before))
}

/// The bytes of a token, none where there is none.
pub(crate) fn token_bytes(token: &Option<[u8; 16]>) -> &[u8]
    ensures { result.now ≡ approved.token_field token.now }
{
    match token {
        Some(token) => token,
        None => &[],
    }
}

/// Whether the domain in a slot installs, loads and moves as it is delegated to.
pub(crate) fn is_delegate(tables: &Tables, domain: u8) -> bool
    ensures { (page : ℕ → List ℕ) (admitted : Admitted) → ActsIn page tables.now domain admitted → IsTrue result ↔ Holds admitted delegated_management }
{
    holds(&tables.entries, domain, Privileges::DELEGATED_MANAGEMENT)
}

/// Whether the domain in a slot deletes as it is delegated to.
pub(crate) fn deletes_as_delegate(tables: &Tables, domain: u8) -> bool
    ensures { (page : ℕ → List ℕ) (admitted : Admitted) → ActsIn page tables.now domain admitted → IsTrue result ↔ IsDelegated admitted }
{
    is_delegate(tables, domain) && !holds(&tables.entries, domain, Privileges::GLOBAL_DELETE)
}
