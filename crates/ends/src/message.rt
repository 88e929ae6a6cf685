// A message: the records of those whom it is for, in order of acceptance, and its payload. A record stands for the mailbox that it
// is modulo 64.
#[derive(Clone, Copy)]
pub struct Message<'a> {
    pub recipients: &'a [usize],
    pub payload: &'a [u8],
}
