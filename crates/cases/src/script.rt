//! Scripts: the lines that a host plays over a card, and what it prints.

mod card;
mod player;
mod why;

pub use player::Player;
