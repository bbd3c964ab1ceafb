// What the caller's own memory holds once a core over it is let go.
ghost use Rattle.std.specs.Prelude.{◌≡◌};
ghost use Rattle.store.specs.Meaning.{settled};
ghost use Rattle.store.specs.Packed.{packed, spread};
ghost use Rattle.store.specs.Plain.{plain, rewritten};

use crate::packed::Packed;
use crate::plain::Plain;
use crate::store::Store;
use answers::Fault;

// Two functions over one generic write, since a clause cannot say what a lent slice holds at the end where
// the type of the core that borrows it is a parameter.

// One write into the caller's words, by a plain core over them.
pub fn write_word(words: &mut [u32], address: u32, value: u32) -> Result<(), Fault>
    ensures answer { result ≡ (plain words.old).takes address }
    ensures words { words.new ≡ settled result (rewritten words.old address value) words.old }
{
    write_through(&mut Plain::new(words), address, value)
}

// One write into the caller's bytes, by a packed core over them.
pub fn write_bytes(bytes: &mut [u8], address: u32, value: u32) -> Result<(), Fault>
    ensures answer { result ≡ (packed bytes.old).takes address }
    ensures bytes { bytes.new ≡ settled result (spread bytes.old address value) bytes.old }
{
    write_through(&mut Packed::new(bytes), address, value)
}

// One write by a user that holds any store as its own.
fn write_through<C: Store>(core: &mut C, address: u32, value: u32) -> Result<(), Fault>
    ensures answer { result ≡ (C.Store.meaning core.old).takes address }
    ensures whole { core.new ≡ settled result (C.Store.wrote core.old address value) core.old }
{
    let mut user = User { core };
    user.write(address, value)
}

#[derive(Drop)]
struct User<C> {
    core: C,
}

impl<C: Store> User<C> {
    fn write(&mut self, address: u32, value: u32) -> Result<(), Fault>
        ensures answer { result ≡ (C.Store.meaning self.old.core).takes address }
        ensures whole { self.new.core ≡ settled result (C.Store.wrote self.old.core address value) self.old.core }
    {
        self.core.write(address, value)
    }
}
