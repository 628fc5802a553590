//! Which calls of a disk fail.
ghost use Rattle.std.specs.Prelude.{◌≡◌, Bool};

/// Which calls of a disk are passed on. It is asked before each.
pub trait Plan: Drop {
    /// Whether the next call is passed on.
    ghost passes: { Self → Bool };

    /// The plan after that call.
    ghost next: { Self → Self };

    /// Whether this call is passed on.
    fn pass(&mut self) -> bool
        ensures passed { result ≡ passes self.old }
        ensures next { self.new ≡ next self.old };
}
