// What the tests share: texts that repeat a piece, directories' texts and rows, and what calls answer.
use directory::listing::Listing;
use directory::row::DirectoryRow;
use directory::spelling::Spelling;
use paths::path::read_path;
use refusals::refusal::Rejected;
use std::alloc::{AllocError, Global};
use std::process::Abort;

// A front, a piece so many times, and a back.
pub(crate) fn repeated(
    heap: Global,
    front: &str,
    piece: &str,
    count: usize,
    back: &str,
) -> Result<Vec<u8>, AllocError> {
    let mut octets = Vec::new(heap);
    octets.extend_from_slice(front.as_bytes())?;
    for _ in 0..count {
        octets.extend_from_slice(piece.as_bytes())?;
    }
    octets.extend_from_slice(back.as_bytes())?;
    Ok(octets)
}

// Where "@" stands in what is read as a path, and where the path ends; or the number of the fault.
pub(crate) fn reading(octets: &[u8]) -> Result<(usize, usize), u8> {
    read_path(octets)
        .map(|path| (path.at, path.end))
        .map_err(u8::from)
}

// A row, of its offset, length and mailbox.
pub(crate) fn row((offset, length, mailbox): (usize, usize, usize)) -> DirectoryRow {
    DirectoryRow {
        offset,
        length,
        mailbox,
    }
}

// The number of the refusal of a build over copies of a text and rows, which are handed back.
pub(crate) fn refused<S: Spelling>(
    rt: &(impl Abort + AllocGlobal),
    text: &[u8],
    rows: &[DirectoryRow],
) -> Result<Result<(), u8>, AllocError> {
    let built = Listing::<S>::new(text.to_vec(rt.alloc())?, rows.to_vec(rt.alloc())?);
    let Err(Rejected { refusal, given }) = built else {
        return Ok(Ok(()));
    };
    assert!(rt; given.0.as_slice() == text && given.1.as_slice() == rows);
    Ok(Err(refusal.number()))
}
