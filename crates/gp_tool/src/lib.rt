//! What the program `gp` does, over any source, sink, device and words.
//!
//! The word `run` powers on the card that a device holds, and gives it the lines of the source, one by one. A
//! command in hexadecimal digits writes its reply as a line: of the lines `00700000`, `00700000`, `# x`, `reset`,
//! `00700000` come the lines `019000`, `029000` and `019000`. A blank line and a comment that begins with `#` do
//! nothing. `reset` takes the card's power away and gives it back, and writes nothing. The word `why` does the same, and
//! writes after each reply the name of the rule that refused the command, or `-`: `80F28002024F00` gives `6982 G6`.
//! The word `replay` compares each reply with the line after its command that begins with `=`, if there is one, and writes
//! differences alone: `00700000` and `= 029000` give `line 2 want 029000 got 019000`. The word `play` takes the lines for those of a
//! script: a host sends the commands, opens sessions and protects what it sends, and what each line prints is written.
//!
//! `show` writes the registry of the card, and `access` who may do what on it, a line each.
//!
//! `desk` takes the lines of the source for those of a desk: it signs tokens of commands and judges receipts. `cap` packs a CAP file, whose
//! bytes the lines spell, into a script. Neither makes a call on the device.
//!
//! `mill SEED COUNT` makes the device the factory card, plays COUNT rounds of lines that SEED chooses, the same each time, and
//! writes five lines of summary.
//!
//! Other words are refused by the usage line. Where there is no memory for the card, the device fails or it holds no
//! card, nothing is read. A line of no other form, or of more than 522 bytes, ends the run by its number, as in `line 3`.
//! A read or a write that fails ends it too, and so does a device that fails in a command, and an input of which
//! 67,108,864 bytes hold no further whole line. The status of the program says which it was.
#![tactic(auto)]

mod answer;
mod bytes;
mod cap_verb;
mod card_end;
mod command;
mod desk_verb;
mod difference;
mod ended;
mod form;
mod format_verb;
mod give;
mod laws;
mod line;
mod literals;
mod mill;
mod mill_verb;
mod play;
mod program;
mod replay;
mod reply;
mod rights;
mod run;
mod run_verb;
mod serving;
mod show;
mod show_verb;
mod step_card;
mod summary;
mod tally;
mod task;
mod top;
mod verb;
mod view;
mod workload;
mod workspace;

pub use ended::Ended;
pub use laws::{host_and_card, lines_keep_trees, one_ending, one_mill, one_text};
pub use line_runs::Ending;
pub use literals::constants;
pub use program::process;
pub use serving::{Served, serve};
pub use top::gp;
pub use verb::Verb;
