//! The images of a file under a log, computed as they are defined, over lists: slow, and plain enough to
//! be read beside the definitions of `spec_log`.
#![tactic(auto)]

mod cover;
mod damage;
mod holders;
mod image;
mod images;
mod left;
mod put;
mod rules;
mod scan;

pub use cover::{bit_guard, byte_guard, is_covered};
pub use damage::damaged_page;
pub use holders::{are_free_for, holds, is_free_for, may_start};
pub use image::PlainImage;
pub use images::{committed_image, final_image, start_image};
pub use left::{is_last_left, newest_left};
pub use rules::{first_broken, follows};
pub use scan::{has_committed, has_ended, has_started, is_unfinished};
