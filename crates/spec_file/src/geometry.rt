ghost use Rattle.std.specs.Prelude.{◌≡◌};

/// Which arithmetic places the map pages of a file. Page 0 names it by a byte.
#[derive(Clone, Copy, Debug, PartialEq, Eq)]
pub enum Geometry {
    /// Close to the one of the Pages and Extents Architecture Guide: 63,904 extents an interval.
    Standard,
    /// This project's own, for small files: 64 extents an interval.
    Small,
}

impl Geometry {
    ghost use Rattle.spec_file.specs.Places.{geometry_of_byte};

    /// The geometry that byte 106 of page 0 names: 1 for standard, 2 for small, none for any other.
    pub fn of_byte(b: u8) -> Option<Geometry>
        ensures { result ≡ geometry_of_byte b }
    {
        match b {
            1 => Some(Geometry::Standard),
            2 => Some(Geometry::Small),
            _ => None,
        }
    }
}
