ghost use Rattle.std.specs.Prelude.{◌≡◌};

/// What a page is for, by its number alone (Pages and Extents Architecture Guide).
#[derive(Clone, Copy, Debug, PartialEq, Eq)]
pub enum Role {
    FileHeader,
    Pfs,
    Gam,
    Sgam,
    /// A page of a system extent that has no use.
    Reserved,
    Boot,
    /// A page that an object may own.
    Ordinary,
}

impl Role {
    ghost use Rattle.spec_file.specs.Roles.{is_for_objects};

    /// Whether an object may own pages of this role.
    pub fn is_for_objects(self) -> bool
        ensures { result ≡ is_for_objects self }
    {
        matches!(self, Role::Ordinary)
    }
}
