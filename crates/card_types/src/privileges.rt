//! Privileges (GlobalPlatform Card Specification 2.3.1, 11.1.2).
ghost use Rattle.std.specs.Prelude.{⊤, ◌≡◌, [], ◌∷◌, IfSome, IfNone};
ghost use Rattle.card_types.specs.Privileges.{IsNamed, ArePrivilegeBytes, bits_of, privilege_bytes, privilege_table};

use bitflags::{Flag, Flags, bitflag_items};

/// A set of privileges, as the number that the three bytes are, the first byte highest.
#[derive(Clone, Copy, Debug, PartialEq, Eq)]
pub struct Privileges(u32);

bitflag_items! {
    impl Privileges: u32 {
        const SECURITY_DOMAIN = 0x80_00_00;
        const DAP_VERIFICATION = 0x40_00_00;
        const DELEGATED_MANAGEMENT = 0x20_00_00;
        const CARD_LOCK = 0x10_00_00;
        const CARD_TERMINATE = 0x08_00_00;
        const CARD_RESET = 0x04_00_00;
        const CVM_MANAGEMENT = 0x02_00_00;
        const MANDATED_DAP = 0x01_00_00;

        const TRUSTED_PATH = 0x80_00;
        const AUTHORIZED_MANAGEMENT = 0x40_00;
        const TOKEN_VERIFICATION = 0x20_00;
        const GLOBAL_DELETE = 0x10_00;
        const GLOBAL_LOCK = 0x08_00;
        const GLOBAL_REGISTRY = 0x04_00;
        const FINAL_APPLICATION = 0x02_00;
        const GLOBAL_SERVICE = 0x01_00;

        const RECEIPT_GENERATION = 0x80;
        const CIPHERED_LOAD_FILE_DATA_BLOCK = 0x40;
        const CONTACTLESS_ACTIVATION = 0x20;
        const CONTACTLESS_SELF_ACTIVATION = 0x10;
    }
}

impl Flags for Privileges {
    type Bits = u32;

    ghost exact = { ⊤ };

    ghost table = { privilege_table };

    ghost set_of = { bits_of };

    fn flags<'a>() -> &'a [Flag<Privileges>] {
        Privileges::FLAGS
    }

    fn bits(&self) -> u32 {
        self.0
    }

    fn from_bits_retain(bits: u32) -> Privileges {
        Privileges(bits)
    }
}

impl Privileges {
    /// Reads one byte, which stands for itself and two bytes 00, or three.
    pub fn from_bytes(bytes: &[u8]) -> Option<Privileges>
        ensures some { IfSome result (λ privileges. ArePrivilegeBytes privileges bytes.now) }
        ensures none { IfNone result ((privileges : Privileges) → ArePrivilegeBytes privileges bytes.now → ⊥) }
        ensures back { (privileges : Privileges) → ArePrivilegeBytes privileges bytes.now → result ≡ Some privileges }
    {
        match *bytes {
            [first] => from_three(first, 0, 0),
            [first, second, third] => from_three(first, second, third),
            _ => None,
        }
    }

    /// The three bytes. A bit above them, which only `from_bits_retain` can set, is left out.
    pub fn to_bytes(&self) -> [u8; 3]
        ensures { result ≡ privilege_bytes self.now }
    {
        let [_, first, second, third] = self.0.to_be_bytes();
        [first, second, third]
    }
}

/// The privileges with these three bytes, where each bit has a name.
fn from_three(first: u8, second: u8, third: u8) -> Option<Privileges>
    ensures named { IfSome result IsNamed }
    ensures some { IfSome result (λ privileges. privilege_bytes privileges ≡ first ∷ second ∷ third ∷ []) }
    ensures back { (privileges : Privileges) → IsNamed privileges → privilege_bytes privileges ≡ first ∷ second ∷ third ∷ [] → result ≡ Some privileges }
{
    Privileges::from_bits(u32::from_be_bytes([0, first, second, third]))
}
