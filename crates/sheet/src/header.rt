// A sheet's header.
use model::Counts;

// The counts H, P and L, and the number R of records.
#[derive(Clone, Copy)]
pub struct Header {
    pub counts: Counts,
    pub records: u32,
}
