//! The bytes of all pages of a device.

ghost use Rattle.std.specs.Prelude.{◌≡◌, ◌+◌, ◌*◌, ◌<◌, length, replicate, slice_range, take, IfOk, OnOk, OnErr};
ghost use Rattle.case_cards.specs.Image.{bytes_of_pages, page_of, with_bytes};
ghost use Rattle.flash_core.specs.Memory.{medium};
ghost use Rattle.flash_core.specs.declared.page.TheConstants.{PAGES};

use crate::case_error::CaseError;
use flash_core::{Flash, MemFlash, PAGES, Page};
use std::alloc::{AllocError, Global};
use std::marker::Model;

/// How many writes and syncs a device takes after its pages are laid.
const ROOM: u32 = 4000;

const PAGE_SIZE: usize = 256;

/// The pages of a device, one after another.
#[derive(Drop)]
pub struct Image {
    bytes: Vec<u8>,
}

impl Model for Image {
    ghost use Rattle.std.specs.Prelude.{◌≡◌, ◌*◌, ℕ, List, length};
    ghost use Rattle.flash_core.specs.declared.page.TheConstants.{PAGES};

    ghost Value = { List ℕ };

    ghost view = { λ image. image.bytes.items };

    ghost invariant = { λ image. length image.bytes.items ≡ PAGES * 256 };
}

impl Image {
    /// Pages of zeros.
    pub fn zeros(alloc: Global) -> Result<Image, AllocError>
        ensures { IfOk result (λ image. image ≡ replicate (PAGES * 256) 0) }
    {
        Ok(Image {
            bytes: Vec::from_elem(alloc, 0, usize::from(PAGES) * PAGE_SIZE)?,
        })
    }

    /// The pages of a device, as they are read.
    pub fn of(alloc: Global, flash: &MemFlash) -> Result<Image, AllocError>
        ensures { IfOk result (λ image. image ≡ bytes_of_pages (take PAGES (medium flash.now).seen)) }
    {
        let mut bytes = Vec::with_capacity(alloc, usize::from(PAGES) * PAGE_SIZE)?;
        for page in 0..PAGES {
            bytes.extend_from_slice(&flash.page(page).bytes)?;
        }
        Ok(Image { bytes })
    }

    /// Puts bytes at a place. What lies past the end is refused.
    pub fn put(&mut self, place: usize, bytes: &[u8]) -> Result<(), CaseError>
        ensures ok { OnOk result (self.new ≡ with_bytes self.old place bytes.now) }
        ensures err { OnErr result ((self.new ≡ self.old) × (length self.old < place + length bytes.now)) }
    {
        match place.checked_add(bytes.len()) {
            Some(end) if end <= self.bytes.len() => {
                let pages = self.bytes.as_mut_slice();
                pages[place..end].copy_from_slice(bytes);
                Ok(())
            }
            _ => Err(CaseError::NoForm),
        }
    }

    /// `count` bytes from a place on.
    pub fn bytes(&self, alloc: Global, place: usize, count: usize) -> Result<Vec<u8>, CaseError>
        ensures { IfOk result (λ bytes. (bytes.items ≡ slice_range self.now place (place + count)) × (length bytes.items ≡ count)) }
    {
        match place.checked_add(count) {
            Some(end) if end <= self.bytes.len() => {
                Ok(Vec::from_slice(alloc, &self.bytes[place..end])?)
            }
            _ => Err(CaseError::NoForm),
        }
    }

    /// A device in memory with these pages, of which none is pending.
    pub fn device(&self, alloc: Global) -> Result<MemFlash, CaseError> {
        let mut flash = MemFlash::new(alloc, ROOM)?;
        for number in 0..PAGES {
            flash.write(number, &self.page(number))?;
        }
        flash.sync()?;
        flash.power_cut(0);
        Ok(flash)
    }

    // The page with this number.
    fn page(&self, number: u16) -> Page
        requires { number < PAGES }
        ensures { result ≡ page_of self.now number }
    {
        let first = usize::from(number) * PAGE_SIZE;
        let mut bytes = [0; PAGE_SIZE];
        bytes.copy_from_slice(&self.bytes[first..first + PAGE_SIZE]);
        Page { bytes }
    }
}
