//! What a segment keeps.
ghost use Rattle.std.specs.Prelude.{◌≡◌, Bool};

/// What can be kept at a segment: it has a sum, or a limit was passed.
pub trait Kept {
    ghost passed: { Self → Bool };

    /// Whether a limit was passed, so that there is no sum.
    fn is_passed(&self) -> bool
        ensures { result ≡ passed self.now };
}
