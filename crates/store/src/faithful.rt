ghost use Rattle.std.specs.Prelude.{◌≡◌, ℕ, Ok};
ghost use Rattle.store.specs.Meaning.{after};

use crate::store::Store;

// A store that becomes by a write what the write says, also where no call has made the write.
pub trait Faithful: Store {
    // A write that is taken changes the meaning by the one word.
    ghost writes: { (s : Self) (a v : ℕ) → (Self.meaning s).takes a ≡ Ok tt → Self.meaning (Self.wrote s a v) ≡ after (Ok tt) (Self.meaning s) a v };
}
