//! The first words of lines that send commands to the card (this profile's own).

ghost use Rattle.std.specs.Prelude.{◌≡◌};
ghost use Rattle.script_lines.specs.Prelude.{Reads, verb_word};

/// The first word of a line that sends commands: it tells the form of the line.
#[derive(Clone, Copy)]
pub enum Verb {
    Select,
    Raw,
    Open,
    Send,
    Bad,
    Install,
    Selectable,
    Extradite,
    Load,
    Delete,
    PutKey,
    Store,
    Life,
    List,
    More,
}

impl Verb {
    /// The verb that a word is, if it is one.
    pub fn read(word: &[u8]) -> Option<Verb>
        ensures { Reads (λ verb. word.now ≡ verb_word verb) result }
    {
        match word {
            b"select" => Some(Verb::Select),
            b"raw" => Some(Verb::Raw),
            b"open" => Some(Verb::Open),
            b"send" => Some(Verb::Send),
            b"bad" => Some(Verb::Bad),
            b"install" => Some(Verb::Install),
            b"selectable" => Some(Verb::Selectable),
            b"extradite" => Some(Verb::Extradite),
            b"load" => Some(Verb::Load),
            b"delete" => Some(Verb::Delete),
            b"putkey" => Some(Verb::PutKey),
            b"store" => Some(Verb::Store),
            b"life" => Some(Verb::Life),
            b"list" => Some(Verb::List),
            b"more" => Some(Verb::More),
            _ => None,
        }
    }
}
