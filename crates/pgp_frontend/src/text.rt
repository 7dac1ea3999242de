//! What the bytes of a text are handed over as.

ghost use Rattle.std.specs.Prelude.{◌≡◌, ℕ, List};

/// A text, of characters or of any bytes.
pub(crate) trait Text {
    /// Its bytes.
    ghost shown: { Self → List ℕ };

    /// Its bytes.
    fn bytes(&self) -> &[u8]
        ensures { result.now ≡ shown self.now };
}

impl<'a> Text for &'a str {
    ghost shown = { λ text. text.now };

    fn bytes(&self) -> &[u8] {
        self.as_bytes()
    }
}

impl<'a> Text for &'a [u8] {
    ghost shown = { λ text. text.now };

    fn bytes(&self) -> &[u8] {
        self
    }
}
