//! How many lines of a workload went well.

ghost use Rattle.std.specs.Prelude.{◌≡◌, ◌<◌, ◌+◌, ◌^◌};
ghost use Rattle.gp_tool.specs.Mill.{with_text};

/// How many texts end with the status word 9000, and how many do not.
#[derive(Clone, Copy)]
pub struct Tally {
    pub success: usize,
    pub other: usize,
}

impl Tally {
    /// Counts a text.
    pub fn count(&mut self, text: &[u8])
        requires room { self.old.success + self.old.other < 2 ^ 32 }
        ensures { self.new ≡ with_text text.now self.old }
    {
        if text.ends_with(b"9000\n") {
            self.success += 1;
        } else {
            self.other += 1;
        }
    }
}
