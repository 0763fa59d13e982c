//! What transactions hold, and the view of one of them while its statement is planned.
#![tactic(auto)]

mod bits;
mod cells;
mod key;
mod memory;
mod plan_pages;
mod table;

pub use bits::{set_gam_bit, set_sgam_bit};
pub use cells::{
    check_free, check_pfs_page, check_pfs_pages, look_catalog, look_page, put_catalog, put_page,
    read_pfs_byte, set_pfs_byte,
};
pub use memory::MemView;
pub use plan_pages::{PageStop, PlanPages};
pub use table::{Held, LockTable};
