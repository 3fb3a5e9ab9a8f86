//! When steps of a run were made.

ghost use Rattle.std.specs.Prelude.{◌≡◌};
ghost use Rattle.cap_objects.specs.Moments.{line_at};

/// When a step was made: how many steps there were with it, and how many hart lines before it.
#[derive(Clone, Copy, Debug, PartialEq, Eq)]
pub struct Moment {
    pub steps: u32,
    pub hart_lines: u32,
}

impl Moment {
    /// The number of the step's line in a log with so many roots: all of them stand before the first step.
    pub fn line(self, roots: u32) -> u64
        ensures value { result ≡ line_at roots self }
    {
        2 + u64::from(roots) + u64::from(self.steps) + u64::from(self.hart_lines)
    }
}
