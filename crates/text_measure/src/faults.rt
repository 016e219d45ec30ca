/// A file that is no text table: where its first line begins that doesn't fit, or its length where its first three lines aren't
/// there. Of a file that is too long it is `MOST_TABLE_BYTES` where all lines fit that are looked at.
#[derive(Clone, Copy, Debug, PartialEq, Eq)]
pub struct BadTable {
    pub at: u32,
}
