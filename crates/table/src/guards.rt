ghost use Rattle.std.specs.Prelude.{◌≡◌, length, replicate};

// Holds the working bytes, which are zero whenever it takes them or lets them go, whichever way the call that works on them ends.
pub struct Cleared<'a>(pub &'a mut [u8]);

impl<'a> Cleared<'a> {
    // Takes the bytes, whatever they hold, and clears them.
    pub fn over(bytes: &'a mut [u8]) -> Cleared<'a>
        ensures zero { result.0.now ≡ replicate (length bytes.old) 0 }
        ensures lent { result.0.ghost_name ≡ bytes.entry.ghost_name }
        ensures len { length result.0.now ≡ length bytes.old }
    {
        bytes.fill(0);
        Cleared(bytes)
    }
}

impl Drop for Cleared<'_> {
    fn drop(self)
        ensures { self.exit.0.now ≡ replicate (length self.entry.0.now) 0 }
    {
        self.0.fill(0);
        let Cleared(_) = self;
    }
}
