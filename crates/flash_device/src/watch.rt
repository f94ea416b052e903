//! Observers of copied bytes.
ghost use Rattle.std.specs.Prelude.{ℕ, List, ◌++◌};

/// An observer of copied bytes in order, such as a hasher.
///
/// The digest of a copied content needs no second read.
pub trait Watch: Drop {
    /// The bytes possibly seen.
    ghost saw: { Self → List ℕ → Type 0 };

    /// Passes the next bytes.
    fn see(&mut self, bytes: &[u8])
        ensures { (seen : List ℕ) → saw self.old seen → saw self.new (seen ++ bytes.now) };
}

/// An observer without state.
#[derive(Drop)]
pub struct Unwatched;

impl Watch for Unwatched {
    ghost saw = { λ _ _. Unit {0} };

    fn see(&mut self, _: &[u8]) {}
}
