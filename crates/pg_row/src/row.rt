use pg_base::PageNo;

/// A row of a page.
#[derive(Clone, Copy, Debug, PartialEq, Eq)]
pub enum Row<'a> {
    /// A row of a heap or of a leaf of a clustered table.
    Leaf { key: u64, payload: &'a [u8] },
    /// A row that names the child below its key.
    Index { key: u64, child: PageNo },
}
