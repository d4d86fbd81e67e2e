//! Images of pages that are to be written.
ghost use Rattle.std.specs.Prelude.{◌≡◌, ◌+◌, ◌^◌, ◌<◌, ◌≤◌, [], OnOk, OnErr, length, option_copied};
ghost use Rattle.ports.specs.Pages.{PageMap, empty_map, put_page};
ghost use Rattle.redo_journal.specs.Placing.{map_of};

use crate::in_order::InOrder;
use ports::Page;
use std::alloc::Global;
use std::collections::BTreeMap;

/// There was no memory.
#[derive(Clone, Copy, Debug, PartialEq, Eq)]
pub struct NoMemory;

/// An ordered map from page numbers to the bytes that the pages are to have.
#[derive(Drop)]
pub struct Images {
    alloc: Global,
    pub(crate) pages: BTreeMap<u64, Box<Page>>,
}

impl Images {
    ghost use Rattle.redo_journal.specs.Images.{coming, image_list, image_map};

    /// No images.
    pub fn new(alloc: Global) -> Images
        ensures map { image_map result ≡ empty_map }
        ensures none { image_list result ≡ [] }
    {
        Images {
            alloc,
            pages: BTreeMap::new(alloc),
        }
    }

    /// Puts an image in the place of the one before. Where there is no memory all is as before.
    #[tactic(auto, using(crate::proofs::ImageLemmas::one_more))]
    pub fn put(&mut self, page: u64, buf: &Page) -> Result<(), NoMemory>
        ensures ok { OnOk result (image_map self.new ≡ put_page (image_map self.old) page buf.now) }
        ensures err { OnErr result (image_map self.new ≡ image_map self.old) }
        ensures count { length (image_list self.new) ≤ length (image_list self.old) + 1 }
    {
        if let Some(kept) = self.pages.get_mut(&page) {
            **kept = *buf;
            return Ok(());
        }
        let Ok(image) = Box::new(self.alloc, *buf) else {
            return Err(NoMemory);
        };
        match self.pages.insert(page, image) {
            Ok(_) => Ok(()),
            Err(_) => Err(NoMemory),
        }
    }

    /// The image of a page, if there is one.
    pub fn get(&self, page: u64) -> Option<&Page>
        ensures { option_copied result ≡ image_map self.now page }
    {
        match self.pages.get(&page) {
            Some(image) => Some(image),
            None => None,
        }
    }

    /// All images, one after another.
    pub fn in_order(&self) -> InOrder<'_>
        ensures all { coming result ≡ image_list self.now }
        ensures map { map_of (image_list self.now) ≡ image_map self.now }
    {
        let _ = self.pages.len();
        InOrder {
            rest: self.pages.iter(),
        }
    }

    /// How many images there are.
    pub(crate) fn len(&self) -> usize
        ensures all { result ≡ length (image_list self.now) }
        ensures few { result < 2 ^ 63 }
    {
        self.pages.len()
    }
}
