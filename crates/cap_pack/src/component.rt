//! Components at the front of bytes.

ghost use Rattle.std.specs.Prelude.{◌≡◌, ◌⊎◌, ◌≤◌, ◌+◌, ◌++◌, [], IfNone, IfSome, length};
ghost use Rattle.cap_pack.specs.Components.{BeginNone, IsComponent, component_bytes};
ghost use Rattle.cap_pack.specs.Held.{component_of};

/// The tag of the header.
pub const HEADER: u8 = 1;

/// The tag of the applet component.
pub const APPLETS: u8 = 3;

/// A component: its tag, and its bytes after tag and size.
#[derive(Clone, Copy)]
pub struct Component<'a> {
    pub tag: u8,
    pub content: &'a [u8],
}

/// The component at the front, and the bytes after it.
pub fn split(bytes: &[u8]) -> Option<(Component<'_>, &[u8])>
    ensures component { IfSome result (λ found. IsComponent (component_of found.0)) }
    ensures spelled { IfSome result (λ found. bytes.now ≡ component_bytes (component_of found.0) ++ found.1.now) }
    ensures shorter { IfSome result (λ found. length found.1.now + 3 ≤ length bytes.now) }
    ensures none { IfNone result ((bytes.now ≡ []) ⊎ BeginNone bytes.now) }
{
    let [tag @ 1.., high, low, rest @ ..] = bytes else {
        return None;
    };
    let size = u16::from_be_bytes([*high, *low]);
    let (content, rest) = rest.split_at_checked(usize::from(size))?;
    let component = Component { tag: *tag, content };
    Some((component, rest))
}
