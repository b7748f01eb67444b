// A memory whose pages are made when they are needed.

ghost use Rattle.std.specs.Prelude.{◌≡◌, ◌≤◌, ◌<◌, ◌+◌, ◌*◌, ◌/◌, ◌%◌, ◌^◌, ℕ, if◌then◌else◌, true, false, is_some};
ghost use Rattle.std.specs.Prelude.{None};
ghost use Rattle.std.specs.Prelude.{IfOk, OnOk, OnErr, vec_len};
ghost use Rattle.std.specs.Int.{byte_len};
ghost use Rattle.machine_words.specs.Memory.{memory_of, load_bytes, store_bytes};
ghost use Rattle.rv_emulator.specs.Widths.{width_of};
ghost use Rattle.rv_emulator.specs.Pages.{paged_memory, all_made, page_at, page_bytes, page_byte};
ghost use Rattle.std.proofs.Common.{ap};
ghost use Rattle.std.proofs.lemmas.Bool.{le-ltb};

use crate::bytes::write_number;
use crate::ram::{Ram, Width};
use assembler::bytes::read_number;
use grift_base::lists::OutOfMemory;
use std::alloc::{AllocError, Global};

/// The bytes of a page.
const PAGE: usize = 4096;

/// A memory of bytes in pages of 4,096. A page is made at the first store to it, and reads as zero before.
#[derive(Drop)]
pub struct PagedRam {
    size: u64,
    pages: Vec<Option<Box<[u8; PAGE]>>>,
    alloc: Global,
    ghost covers: { size ≤ 4096 * vec_len pages },
}

impl PagedRam {
    /// These many bytes, all zero, with no page made.
    pub fn new(alloc: Global, size: u64) -> Result<PagedRam, OutOfMemory>
        ensures size { IfOk result (λ ram. ⟦<PagedRam as Ram>⟧.bytes_len ram ≡ size) }
        ensures zero { IfOk result (λ ram. (i : ℕ) → ⟦<PagedRam as Ram>⟧.memory ram i ≡ 0) }
    {
        let count = size.div_ceil(PAGE as u64);
        let made: Result<Vec<Option<Box<[u8; PAGE]>>>, AllocError> =
            vec![in alloc; None; count as usize];
        match made {
            Ok(pages) => Ok(PagedRam { size, pages, alloc }),
            Err(_) => Err(OutOfMemory),
        }
    }
}

// The number of these many bytes at a place of a page.
fn load_in(page: &[u8; PAGE], at: usize, width: Width) -> u64
    requires { at + byte_len (width_of width) ≤ 4096 }
    ensures value { result ≡ load_bytes (byte_len (width_of width)) (memory_of page.now) at }
    ensures fits { result < 2 ^ (8 * byte_len (width_of width)) }
{
    match width {
        Width::B1 => read_number::<1>(page, at),
        Width::B2 => read_number::<2>(page, at),
        Width::B4 => read_number::<4>(page, at),
        Width::B8 => read_number::<8>(page, at),
    }
}

// Writes the lowest bytes of a word at a place of a page.
fn store_in(page: &mut [u8; PAGE], at: usize, width: Width, word: u64)
    requires { at + byte_len (width_of width) ≤ 4096 }
    ensures { memory_of page.new ≡ store_bytes (byte_len (width_of width)) (memory_of page.old) at word }
{
    match width {
        Width::B1 => write_number::<1>(page, at, word),
        Width::B2 => write_number::<2>(page, at, word),
        Width::B4 => write_number::<4>(page, at, word),
        Width::B8 => write_number::<8>(page, at, word),
    }
}

// Writes the lowest bytes of a word at a place of a page, which is made where it is missing.
#[inline(always)]
fn store_in_page(
    alloc: Global,
    page: &mut Option<Box<[u8; PAGE]>>,
    at: usize,
    width: Width,
    word: u64,
) -> Result<(), OutOfMemory>
    requires { at + byte_len (width_of width) ≤ 4096 }
    ensures ok { OnOk result (memory_of (page_bytes page.new)
        ≡ store_bytes (byte_len (width_of width)) (memory_of (page_bytes page.old)) at word) }
    ensures made { OnOk result (is_some page.new ≡ true) }
    ensures err { OnErr result (page.new ≡ None) }
    ensures missing { OnErr result (page.old ≡ None) }
{
    if let Some(bytes) = page {
        store_in(bytes, at, width, word);
        return Ok(());
    }
    let mut bytes = Box::new(alloc, [0; PAGE])?;
    store_in(&mut bytes, at, width, word);
    *page = Some(bytes);
    Ok(())
}

impl Ram for PagedRam {
    ghost bytes_len = { λ ram. ram.size };

    ghost memory = { λ ram. paged_memory ram.size ram.pages.items };

    ghost whole = { λ ram. all_made ram.pages.items };

    fn size(&self) -> u64 {
        self.size
    }

    fn load(&self, at: u64, width: Width) -> u64 {
        match &self.pages[at as usize / PAGE] {
            Some(page) => load_in(page, at as usize % PAGE, width),
            None => 0,
        }
    }

    // Makes the page of the address where it is missing. Want of memory comes only there.
    #[inline(always)]
    fn store(&mut self, at: u64, width: Width, word: u64) -> Result<(), OutOfMemory>
        requires aligned { at % byte_len (width_of width) ≡ 0 }
        requires inside { at + byte_len (width_of width) ≤ self.old.size }
        ensures len { self.new.size ≡ self.old.size }
        ensures stays_whole { all_made self.old.pages.items ≡ true → all_made self.new.pages.items ≡ true }
        ensures ok { OnOk result (paged_memory self.new.size self.new.pages.items
            ≡ store_bytes (byte_len (width_of width)) (paged_memory self.old.size self.old.pages.items) at word) }
        ensures err { OnErr result (paged_memory self.new.size self.new.pages.items
            ≡ paged_memory self.old.size self.old.pages.items) }
        ensures fails { OnErr result (all_made self.old.pages.items ≡ false) }
        ensures fails_still { OnErr result (all_made self.new.pages.items ≡ false) }
        ensures missing { OnErr result (page_at self.old.pages.items (at / 4096) ≡ None) }
        ensures made { OnOk result (is_some (page_at self.new.pages.items (at / 4096)) ≡ true) }
    {
        let alloc = self.alloc;
        store_in_page(
            alloc,
            &mut self.pages[at as usize / PAGE],
            at as usize % PAGE,
            width,
            word,
        )
    }

    ghost nothing_past = { λ ram at h.
        ap (λ below. if below then page_byte ram.pages.items at else 0) (le-ltb at ram.size h) };
}
