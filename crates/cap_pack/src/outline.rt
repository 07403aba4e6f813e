//! What a walk through the components of a CAP file meets.

ghost use Rattle.std.specs.Prelude.{◌≡◌, ◌≤◌, ◌++◌, [], ◌∷◌, List, IfErr, IfOk, length};
ghost use Rattle.cap_pack.specs.Components.{AreComponents, components_size};
ghost use Rattle.cap_pack.specs.Components as standard;
ghost use Rattle.cap_pack.specs.Held.{component_of};
ghost use Rattle.cap_pack.specs.Outlines.{Outlines, repeats};
ghost use Rattle.cap_pack.specs.Stops.{BreakAt};
ghost use Rattle.cap_pack.specs.declared.limit.TheConstants.{CAP_LIMIT};

use crate::component::{APPLETS, Component, HEADER, split};
use crate::limit::CAP_LIMIT;

/// The content of the applet component, and where the component begins.
#[derive(Clone, Copy)]
pub struct AppletComponent<'a> {
    pub place: u32,
    pub content: &'a [u8],
}

/// What components have: a header, wherever it is, the applet component, and the place of the first component that repeats one of
/// these.
#[derive(Clone, Copy)]
pub struct Outline<'a> {
    pub header: bool,
    pub applets: Option<AppletComponent<'a>>,
    pub twice: Option<u32>,
}

impl<'a> Outline<'a> {
    // Of no components.
    fn new() -> Outline<'a>
        ensures { Outlines [] result }
    {
        Outline {
            header: false,
            applets: None,
            twice: None,
        }
    }

    // Whether a component with this tag repeats one.
    fn repeats(&self, tag: u8) -> bool
        ensures { result ≡ repeats self.now tag }
    {
        match tag {
            HEADER => self.header,
            APPLETS => self.applets.is_some(),
            _ => false,
        }
    }

    // Goes on by a component that begins at this place.
    fn meet(&mut self, place: u32, component: &Component<'a>)
        ensures { (before : List standard.Component) → Outlines before self.old → place ≡ components_size before
            → Outlines (before ++ component_of component.now ∷ []) self.new }
    {
        if self.repeats(component.tag) {
            self.twice = self.twice.or(Some(place));
            return;
        }
        match component.tag {
            HEADER => self.header = true,
            APPLETS => self.applets = Some(AppletComponent {
                place,
                content: component.content,
            }),
            _ => {}
        }
    }

    /// The outline of the components that the bytes are, or the place where they break off.
    pub fn of(bytes: &'a [u8]) -> Result<Outline<'a>, u32>
        requires { length bytes.now ≤ CAP_LIMIT }
        ensures whole { IfOk result (λ outline. (components : List standard.Component) × AreComponents components bytes.now × Outlines components outline) }
        ensures broken { IfErr result (λ place. BreakAt place bytes.now) }
    {
        let mut outline = Outline::new();
        let mut rest = bytes;
        while let Some((component, next)) = split(rest) {
            outline.meet((bytes.len() - rest.len()) as u32, &component);
            rest = next;
        }
        if rest.is_empty() {
            Ok(outline)
        } else {
            Err((bytes.len() - rest.len()) as u32)
        }
    }
}
