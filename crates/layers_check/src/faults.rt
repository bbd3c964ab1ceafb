use answers::{Fault, Layer};

pub(crate) fn unmapped(address: u32) -> Fault {
    Fault::unmapped(Layer::Relocation, address)
}
