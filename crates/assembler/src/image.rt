// Images, as bytes.

ghost use Rattle.std.specs.Prelude.{◌≡◌, ◌≢◌, ◌+◌, ◌*◌, ◌^◌, ◌≤◌, ◌<◌, ◌↔◌, ◌⊎◌, ℕ, List, IsSome, IsTrue, SomeIff};
ghost use Rattle.std.specs.Prelude.{IfOk, IfErr, OnOk, length, codes, slice_get, slice_range};
ghost use Rattle.rv_machine.specs.Image.{IsImage, image_len, statics_len, code_len, label_count, entry, loaded_part};
ghost use Rattle.rv_machine.specs.Image.{label_at, labels_of};
ghost use Rattle.assembler.specs.declared.image.ImageFault.{ImageFault};
ghost use Rattle.assembler.specs.Faults.{IsFirstFault};

use crate::bytes::read_number;
use grift_base::lists;
use grift_base::lists::{Bytes, Items};
use grift_base::places::Pos;
use std::alloc::Global;
use std::marker::Model;

// How many bytes the header has.
const HEADER_LEN: usize = 64;

/// An image: a header of 64 bytes, then statics, code and labels without gaps. It is the list of its bytes, whose
/// header keeps what it promises.
#[derive(Drop)]
pub struct Image {
    bytes: Bytes,
}

impl Model for Image {
    ghost use Rattle.std.specs.Prelude.{List, ℕ};
    ghost use Rattle.rv_machine.specs.Image.{IsImage};

    ghost Value = { List ℕ };

    ghost view = { λ image. image.bytes };

    ghost invariant = { λ image. IsImage image.bytes };
}

impl Image {
    /// The image with these bytes.
    pub fn new(bytes: Bytes) -> Image
        requires { IsImage bytes }
        ensures { result ≡ bytes }
    {
        Image { bytes }
    }

    /// All bytes, the header's first.
    pub fn bytes(&self) -> &[u8]
        ensures value { result.now ≡ self.now }
        ensures sound { IsImage self.now }
    {
        self.bytes.as_slice()
    }

    /// How many bytes the statics have, a multiple of 8.
    pub fn statics_len(&self) -> u64
        ensures { result ≡ statics_len self.now }
    {
        read_number::<8>(self.bytes(), 16)
    }

    /// How many bytes the code has, a multiple of 8 and at least 8.
    pub fn code_len(&self) -> u64
        ensures { result ≡ code_len self.now }
    {
        read_number::<8>(self.bytes(), 24)
    }

    /// How many labels there are.
    pub fn label_count(&self) -> u32
        ensures value { result ≡ label_count self.now }
        ensures small { result < 4294967295 }
    {
        read_number::<8>(self.bytes(), 32) as u32
    }

    /// The offset in code at which it starts, a multiple of 4 below the length of the code.
    pub fn entry(&self) -> u64
        ensures { result ≡ entry self.now }
    {
        read_number::<8>(self.bytes(), 40)
    }

    /// Statics and code, which lie in memory from its first address on.
    pub fn loaded(&self) -> &[u8]
        ensures value { result.now ≡ loaded_part self.now }
        ensures len { length result.now ≡ statics_len self.now + code_len self.now }
        ensures sound { IsImage self.now }
    {
        let end = self.labels_start();
        &self.bytes()[HEADER_LEN..end]
    }

    /// The label with this number, from 0; none exactly where there are no more than `i` labels.
    pub fn label(&self, i: u32) -> Option<Pos>
        ensures value { result ≡ slice_get (labels_of self.now) i }
        ensures some { IsSome result ↔ (i < label_count self.now) }
    {
        if self.label_count() <= i {
            return None;
        }
        let bytes = self.bytes();
        Some(label_at(bytes, self.labels_start() + 8 * i as usize))
    }

    /// All labels in order.
    pub fn labels(&self, alloc: Global) -> Result<Items<Pos>, lists::OutOfMemory>
        ensures { IfOk result (λ labels. labels ≡ labels_of self.now) }
    {
        let bytes = self.bytes();
        let start = self.labels_start();
        let mut labels = Items::new(alloc);
        for i in 0..self.label_count() {
            labels.push(label_at(bytes, start + 8 * i as usize))?;
        }
        Ok(labels)
    }

    // The offset at which the labels begin.
    fn labels_start(&self) -> usize
        ensures value { result ≡ 64 + statics_len self.now + code_len self.now }
        ensures sections { result + 8 * label_count self.now ≡ length self.now }
    {
        self.bytes().len() - 8 * self.label_count() as usize
    }
}

/// Why bytes were not read as an image.
#[derive(Clone, Copy, PartialEq, Eq, Debug)]
pub enum ImageFault {
    /// The first eight bytes are not those of an image, or are not there.
    BadMagic,
    /// The header is not whole, or doesn't tell how many bytes there are.
    BadLength,
    /// Another line of the header fails, or the sections don't make up the length.
    BadSection,
    /// No memory was left.
    OutOfMemory,
}

impl From<lists::OutOfMemory> for ImageFault {
    ghost use Rattle.std.specs.Prelude.{◌≡◌};
    ghost use Rattle.assembler.specs.declared.image.ImageFault.TheVariants.{OutOfMemory};

    ghost from_gives = { λ _ fault. fault ≡ OutOfMemory };

    fn from(_want: lists::OutOfMemory) -> ImageFault {
        ImageFault::OutOfMemory
    }
}

/// The image that these bytes are, or the fault of the first test that they fail. Want of memory may come of any
/// bytes.
pub fn read_image(alloc: Global, bytes: &[u8]) -> Result<Image, ImageFault>
    ensures image { IfOk result (λ image. image ≡ bytes.now) }
    ensures sound { OnOk result (IsImage bytes.now) }
    ensures fault { IfErr result (λ fault. fault ≢ ImageFault.OutOfMemory → IsFirstFault bytes.now fault) }
{
    if !has_magic(bytes) {
        return Err(ImageFault::BadMagic);
    }
    if !has_whole_len(bytes) {
        return Err(ImageFault::BadLength);
    }
    if !has_sections(bytes) {
        return Err(ImageFault::BadSection);
    }
    let bytes = Bytes::from_slice(alloc, bytes)?;
    Ok(Image::new(bytes))
}

/// Bytes are an image or have one fault, and never two of these together.
pub fn bytes_are_an_image_or_have_one_fault()
    ensures some { (bytes : List ℕ) → IsImage bytes ⊎ ((fault : ImageFault) × IsFirstFault bytes fault) }
    ensures no_fault_of_an_image { (bytes : List ℕ) (fault : ImageFault) → IsImage bytes → ¬ IsFirstFault bytes fault }
    ensures no_two_faults { (bytes : List ℕ) (first second : ImageFault)
        → IsFirstFault bytes first → IsFirstFault bytes second → first ≡ second }
{}

/// Whether these bytes are an image.
pub fn is_image(bytes: &[u8]) -> bool
    ensures { IsTrue result ↔ IsImage bytes.now }
{
    has_magic(bytes) && has_whole_len(bytes) && has_sections(bytes)
}

// Whether these bytes begin as every image does.
fn has_magic(bytes: &[u8]) -> bool
    ensures { IsTrue result ↔ (slice_range bytes.now 0 8 ≡ codes "GRIFTRV1") }
{
    bytes.starts_with(b"GRIFTRV1")
}

// Whether these bytes have a header, and it tells their number.
fn has_whole_len(bytes: &[u8]) -> bool
    ensures { IsTrue result ↔ ((64 ≤ length bytes.now) × (image_len bytes.now ≡ length bytes.now)) }
{
    HEADER_LEN <= bytes.len() && read_number::<8>(bytes, 8) == bytes.len() as u64
}

// Whether these bytes, whose magic and length are right, are an image.
fn has_sections(bytes: &[u8]) -> bool
    requires magic { slice_range bytes.now 0 8 ≡ codes "GRIFTRV1" }
    requires whole { (64 ≤ length bytes.now) × (image_len bytes.now ≡ length bytes.now) }
    ensures { IsTrue result ↔ IsImage bytes.now }
{
    let statics = read_number::<8>(bytes, 16);
    let code = read_number::<8>(bytes, 24);
    let labels = read_number::<8>(bytes, 32);
    let entry = read_number::<8>(bytes, 40);
    statics % 8 == 0
        && code % 8 == 0
        && 8 <= code
        && labels < 4_294_967_295
        && entry % 4 == 0
        && entry < code
        && read_number::<8>(bytes, 48) == 0
        && read_number::<8>(bytes, 56) == 0
        && sections_len(statics, code, labels) == Some(bytes.len() as u64)
}

// How many bytes an image with such sections has, where the number fits.
fn sections_len(statics: u64, code: u64, labels: u64) -> Option<u64>
    requires { labels < 4294967295 }
    ensures { SomeIff result (64 + statics + code + 8 * labels < 2 ^ 64) (64 + statics + code + 8 * labels) }
{
    statics
        .checked_add(code)?
        .checked_add(HEADER_LEN as u64 + 8 * labels)
}

// The label whose line and column begin at this place.
fn label_at(bytes: &[u8], at: usize) -> Pos
    requires { at + 8 ≤ length bytes.now }
    ensures { result ≡ label_at bytes.now at }
{
    Pos {
        line: read_number::<4>(bytes, at) as u32,
        col: read_number::<4>(bytes, at + 4) as u32,
    }
}
