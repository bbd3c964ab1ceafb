ghost use Rattle.std.specs.Prelude.{T};
ghost use Rattle.pages.specs.Limits.{lawful};

// Quarters of a page: `length` of them from `start` on, and whether they take writes.
#[derive(Clone, Copy, PartialEq, Eq, Debug)]
pub struct Window {
    pub(crate) page: u8,
    pub(crate) start: u8,
    pub(crate) length: u8,
    pub(crate) write: bool,
    ghost fits: { T (lawful page start length) },
}

// An entry of the page file; none where no page is.
pub type Descriptor = Option<Window>;
