/// Which use of a page its PFS byte tells of (Pages and Extents Architecture Guide; the exact values
/// are this project's own).
#[derive(Clone, Copy, Debug, PartialEq, Eq)]
pub enum PfsKind {
    /// Page 0, and the PFS, GAM and SGAM pages.
    System,
    /// A page of a system extent that has no use.
    Reserved,
    Boot,
    /// An IAM page in a chain.
    Iam,
    /// A page in a single-page slot.
    Single,
    /// An allocated page of an extent that an object marks.
    Uniform,
    /// An ordinary page without use.
    Unused,
}
