// A run is its line and its trip number together. Two runs are the same only where both agree.
ghost use Rattle.terms.specs.Run.{bad_name};
ghost use Rattle.std.specs.Prelude.{◌≡◌};

#[derive(Clone, Copy, PartialEq, Eq, Default)]
pub struct Run {
    pub line: u32,
    pub trip: u32,
}

impl Run {
    pub const LINE_MOST: u32 = 65535;

    // No run has line 0 or a line above the most; every trip number is an ordinary one.
    pub fn is_bad(self) -> bool
        ensures { result ≡ bad_name self }
    {
        if self.line == 0 {
            return true;
        }
        if self.line > Run::LINE_MOST {
            return true;
        }
        false
    }
}
