// An index register, or B0, which reads as zero and drops what is written.
#[derive(Clone, Copy, PartialEq, Eq, Debug)]
pub enum Index {
    B0,
    B1,
    B2,
    B3,
}
