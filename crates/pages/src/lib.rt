// Page descriptors, the page file, and the relocation of a group's addresses.
#![tactic(auto)]

pub mod descriptor;
pub mod file;
pub mod group;
pub mod operator;
pub mod relocation;
pub mod setting;
pub mod view;

pub use descriptor::{Descriptor, Window};
pub use file::Place;
pub use group::Group;
pub use relocation::Relocation;
pub use setting::{Page, Setting};
pub use view::original;
