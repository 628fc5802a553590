//! Whether a pass is still wanted.
ghost use Rattle.std.specs.Prelude.{◌≡◌, false};

/// Who a pass is made for. It is asked after each portion of a pass whether that is still wanted.
pub trait Wish {
    /// What holds of a wish that has ended.
    ghost ended: { Self → Type 0 };

    /// Whether the pass is still wanted.
    fn is_wanted(&self) -> bool
        ensures ended { result ≡ false → ended self.now };
}

/// The wish that never ends: a pass that is made for it comes to its end.
pub struct Always;

impl Wish for Always {
    ghost ended = { λ wish. ⊥ };

    fn is_wanted(&self) -> bool {
        true
    }
}

/// How many nodes a pass goes on before it asks again.
const PORTION: usize = 16384;

/// Whether a pass that has come over so many nodes asks.
pub(crate) fn is_portion(nodes: usize) -> bool {
    nodes % PORTION == 0
}
