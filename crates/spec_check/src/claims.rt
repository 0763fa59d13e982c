/// What an extent is claimed by.
#[derive(Clone, Copy)]
pub struct Claims {
    pub system: bool,
    /// The free space.
    pub free: bool,
    /// Single pages.
    pub mixed: bool,
    /// Objects that mark it.
    pub marked: bool,
}
