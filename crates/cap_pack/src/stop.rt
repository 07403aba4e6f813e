//! Why bytes are no CAP file that can be packed.

ghost use Rattle.std.specs.Prelude.{◌≡◌, ◌≤◌, ◌++◌, [], decimal, length};
ghost use Rattle.arrayvec.specs.ArrayVec.{array_vec_len};
ghost use Rattle.cap_pack.specs.Said.{stop_text};

use arrayvec::ArrayVec;
use line_text::{push_decimal, push_word};

/// Why bytes are no CAP file that can be packed. Places count from 0.
#[derive(Clone, Copy, Debug, PartialEq, Eq)]
pub enum CapStop {
    /// There are more than `CAP_LIMIT` bytes.
    Large,

    /// The component that would begin here has tag 00, or the end cuts it.
    Component(u32),

    /// The first component is no header with a package AID.
    Header,

    /// The component that begins here is a second header or a second applet component.
    Twice(u32),

    /// The applet component that begins here is shorter than its applets need, or an AID there has not 5 to 16 bytes.
    Applets(u32),
}

// A word and a place.
fn push_place(word: &[u8], place: u32, out: &mut ArrayVec<u8, 64>)
    requires empty { out.old.items ≡ [] }
    requires short { length word.now ≤ 20 }
    ensures written { out.new.items ≡ word.now ++ decimal place }
    ensures size { array_vec_len out.new ≤ 60 }
{
    push_word(word, out);
    push_decimal(place as usize, out);
}

impl CapStop {
    /// Replaces what `out` holds by the text of the stop, without a newline.
    pub fn text(&self, out: &mut ArrayVec<u8, 64>)
        ensures text { out.new.items ≡ stop_text self.now }
        ensures size { array_vec_len out.new ≤ 60 }
    {
        out.clear();
        match self {
            CapStop::Large => push_word(b"cap large", out),
            CapStop::Component(place) => push_place(b"cap component ", *place, out),
            CapStop::Header => push_word(b"cap header", out),
            CapStop::Twice(place) => push_place(b"cap twice ", *place, out),
            CapStop::Applets(place) => push_place(b"cap applets ", *place, out),
        }
    }
}
