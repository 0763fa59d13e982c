//! By what the holder of a resource is found.
ghost use Rattle.std.specs.Prelude.{◌≡◌};
ghost use Rattle.db_locks.specs.Keys.{key_of};

use pg_base::Resource;

/// The grain and the number of a resource, by which its holder is found.
#[derive(Clone, Copy, Debug, PartialEq, Eq, Hash)]
pub(crate) struct ResourceKey {
    pub(crate) grain: u8,
    pub(crate) number: u32,
}

/// What a resource's holder is found by.
pub(crate) fn key(r: Resource) -> ResourceKey
    ensures { result ≡ key_of r }
{
    match r {
        Resource::Catalog => ResourceKey {
            grain: 1,
            number: 0,
        },
        Resource::Table(o) => ResourceKey {
            grain: 2,
            number: o.0,
        },
        Resource::Extent(e) => ResourceKey {
            grain: 3,
            number: e.0,
        },
        Resource::Byte(p) => ResourceKey {
            grain: 4,
            number: p.0,
        },
        Resource::Page(p) => ResourceKey {
            grain: 5,
            number: p.0,
        },
    }
}
