//! What is found wrong, in a word.

pub type Told<T> = Result<T, &'static str>;

pub fn told(holds: bool, what: &'static str) -> Told<()> {
    if holds { Ok(()) } else { Err(what) }
}
