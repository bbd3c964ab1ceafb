// Why a deck stops, or a command of it is not obeyed.
use session::Misplaced;
use std::alloc::AllocError;
use std::io;

#[derive(Debug, Drop)]
pub(crate) enum Failure {
    // the deck cannot be read to its end
    Unread,
    // the record cannot be printed
    Unprinted(io::Error),
    // the command cannot be obeyed where it stands; the deck goes on behind it
    Misplaced(Misplaced),
}

impl From<io::Error> for Failure {
    fn from(error: io::Error) -> Failure {
        Failure::Unprinted(error)
    }
}

impl From<Misplaced> for Failure {
    fn from(misplaced: Misplaced) -> Failure {
        Failure::Misplaced(misplaced)
    }
}

impl From<AllocError> for Failure {
    fn from(error: AllocError) -> Failure {
        Failure::Misplaced(Misplaced::from(error))
    }
}
