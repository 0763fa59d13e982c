use db_cat::CatRow;
use pg_base::Geometry;

/// A table, and what page 0 says of the file that it stands in.
#[derive(Drop)]
pub struct Table {
    pub row: CatRow,
    pub geometry: Geometry,
    /// How many pages the file has.
    pub pages: u32,
}
