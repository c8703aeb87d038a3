ghost use Rattle.std.specs.Prelude.{◌≡◌, ℕ};

// A call that was denied. Each has a number of its own, listed in docs/RULES.md.
pub trait Denial {
    ghost number_of: { Self → ℕ };

    fn number(&self) -> u8
        ensures { result ≡ number_of self.now };
}
