ghost use Rattle.std.specs.Prelude.{◌≡◌, ◌<◌, length, slice_set};
ghost use Rattle.spec_file.specs.Image.{page};

use spec_log::Values;
use std::marker::Model;

/// The pages of a file, which contracts see as an image.
#[derive(Drop)]
pub struct PlainImage {
    pages: Vec<Values<u8>>,
}

impl Model for PlainImage {
    ghost use Rattle.std.specs.Prelude.{List, ℕ};

    ghost Value = { List (List ℕ) };

    ghost view = { λ image. image.pages.items };
}

impl PlainImage {
    /// The image of these pages.
    pub fn of(pages: Vec<Values<u8>>) -> PlainImage
        ensures { result ≡ pages.items }
    {
        PlainImage { pages }
    }

    /// How many pages there are.
    pub fn count(&self) -> usize
        ensures { result ≡ length self.now }
    {
        self.pages.len()
    }

    /// The bytes of page p.
    pub fn page(&self, p: usize) -> &[u8]
        requires { p < length self.now }
        ensures { result.now ≡ page self.now p }
    {
        self.pages[p].as_slice()
    }

    /// Page p has these bytes from here on.
    pub fn set_page(&mut self, p: usize, bytes: Values<u8>)
        requires { p < length self.old }
        ensures { self.new ≡ slice_set self.old p bytes }
    {
        self.pages[p] = bytes;
    }
}
