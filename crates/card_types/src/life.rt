//! Life cycle states of applications and security domains (GlobalPlatform Card Specification
//! 2.3.1, 11.1.1).
ghost use Rattle.std.specs.Prelude.{◌≡◌, IfSome, IfNone};
ghost use Rattle.card_types.specs.LifeMark.{life_code, life_mark_code};

/// The life cycle state of an application or a security domain. Only a domain is personalized.
#[derive(Clone, Copy, Debug, PartialEq, Eq)]
pub enum Life {
    Installed = 0x03,
    Selectable = 0x07,
    Personalized = 0x0F,
}

/// A life cycle state, and whether its holder is locked.
#[derive(Clone, Copy, Debug, PartialEq, Eq)]
pub struct LifeMark {
    pub life: Life,
    pub locked: bool,
}

/// What a lock adds to a code.
const LOCK: u8 = 0x80;

impl LifeMark {
    /// The state and mark with this code.
    pub fn from_code(code: u8) -> Option<LifeMark>
        ensures some { IfSome result (λ mark. life_mark_code mark ≡ code) }
        ensures none { IfNone result ((mark : LifeMark) → life_mark_code mark ≡ code → ⊥) }
        ensures back { (mark : LifeMark) → life_mark_code mark ≡ code → result ≡ Some mark }
    {
        Some(LifeMark {
            life: life_with(code % LOCK)?,
            locked: code >= LOCK,
        })
    }

    /// Its code.
    pub fn code(&self) -> u8
        ensures { result ≡ life_mark_code self.now }
    {
        let life = self.life as u8;
        if self.locked { life + LOCK } else { life }
    }
}

/// The state with this code, where nothing is locked.
fn life_with(code: u8) -> Option<Life>
    ensures some { IfSome result (λ life. life_code life ≡ code) }
    ensures none { IfNone result ((life : Life) → life_code life ≡ code → ⊥) }
{
    match code {
        0x03 => Some(Life::Installed),
        0x07 => Some(Life::Selectable),
        0x0F => Some(Life::Personalized),
        _ => None,
    }
}
