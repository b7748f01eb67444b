// Whole objects.

ghost use Rattle.std.specs.Prelude.{◌≡◌, ◌+◌, ◌*◌, ◌<◌, ◌^◌, ◌↔◌, IfSome, IfNone, IsTrue, Some, None, replicate};
ghost use Rattle.grift_base.specs.Words.{word_within};
ghost use Rattle.object_layout.specs.declared.headers.Header.{Header as AHeader};
ghost use Rattle.object_layout.specs.declared.kinds.Wanted.TheVariants.{Coercion};
ghost use Rattle.object_layout.specs.Kinds.{allows_count, wanted_words};
ghost use Rattle.object_layout.specs.Wholes.{IsWhole, header_at, kind_at, height_of, StandsWanted};
ghost use Rattle.object_layout.specs.Wholes.{HasHeight, TellsHeight, wanted_height};

use crate::headers::{Header, unpack};
use crate::kinds::{Kind, Wanted};
use grift_base::words::Words;

/// Where objects stand.
#[derive(Clone, Copy, PartialEq, Eq)]
pub enum Area {
    /// The region: no type is a whole object there.
    Region,
    /// The words that stand before the code.
    Statics,
}

/// The header at an address, if one stands there.
pub fn header_at<W: Words>(memory: &W, at: u64) -> Option<Header>
    ensures { result ≡ header_at (word_within (W.first memory.now) (W.end memory.now) (W.word_at memory.now)) at }
{
    unpack(memory.word(at)?)
}

/// The kind of the object at an address, if a header stands there.
pub fn kind_at<W: Words>(memory: &W, at: u64) -> Option<Kind>
    ensures { result ≡ kind_at (word_within (W.first memory.now) (W.end memory.now) (W.word_at memory.now)) at }
{
    Kind::from_number(header_at(memory, at)?.kind)
}

// The kind and the height of the object at an address that lies below `own`.
fn object_below<W: Words>(memory: &W, own: u64, word: u64) -> Option<(Kind, u16)>
    ensures found { IfSome result (λ found.
        let told = word_within (W.first memory.now) (W.end memory.now) (W.word_at memory.now) in
        (word < own) × (kind_at told word ≡ Some found.0) × (height_of (header_at told word) ≡ found.1)) }
    ensures none { IfNone result (word < own
        → kind_at (word_within (W.first memory.now) (W.end memory.now) (W.word_at memory.now)) word ≡ None) }
{
    if word >= own {
        return None;
    }
    let header = header_at(memory, word)?;
    let kind = Kind::from_number(header.kind)?;
    Some((kind, header.height))
}

// The height of the word at an address, in the object at `own`; none where it isn't what it has to be.
fn height_of_wanted<W: Words>(memory: &W, own: u64, at: u64, wanted: Wanted) -> Option<u16>
    ensures stands { IfSome result (λ height.
        let told = word_within (W.first memory.now) (W.end memory.now) (W.word_at memory.now) in
        StandsWanted told own at wanted × (height ≡ wanted_height told wanted at)) }
    ensures none { IfNone result (¬ StandsWanted
        (word_within (W.first memory.now) (W.end memory.now) (W.word_at memory.now)) own at wanted) }
{
    let word = memory.word(at)?;
    match wanted {
        Wanted::Anything => return Some(0),
        Wanted::Coercion if word == 0 => return Some(0),
        _ => {}
    }
    let (kind, height) = object_below(memory, own, word)?;
    match wanted {
        Wanted::Target if kind.is_target() => Some(0),
        Wanted::Middle if kind.is_middle() => Some(0),
        Wanted::Coercion if kind.is_coercion() => Some(height),
        Wanted::TypeAddress if kind.is_type() => Some(height),
        _ => None,
    }
}

// The height of the coercions after the header of the object at `own`, of which there are `count`; none where one of
// the words is no coercion.
fn height_of_coercions<W: Words>(memory: &W, own: u64, count: u32) -> Option<u16>
    requires { own + (8 + 8 * count) < 2 ^ 64 }
    ensures { TellsHeight (word_within (W.first memory.now) (W.end memory.now) (W.word_at memory.now)) own
        (replicate count Coercion) result }
{
    let mut highest = 0u16;
    let mut left = count;
    while left > 0 {
        left -= 1;
        let at = own + 8 + 8 * u64::from(left);
        highest = highest.max(height_of_wanted(memory, own, at, Wanted::Coercion)?);
    }
    Some(highest)
}

// The greatest height of the words after the header of the object at `own`; none where one isn't what it has to be.
fn height_of_parts<W: Words>(memory: &W, own: u64, kind: Kind, count: u32) -> Option<u16>
    requires fits { own + (8 + 8 * count) < 2 ^ 64 }
    requires count { IsTrue (allows_count kind count) }
    ensures { TellsHeight (word_within (W.first memory.now) (W.end memory.now) (W.word_at memory.now)) own
        (wanted_words kind count) result }
{
    let first = own + 8;
    match kind {
        Kind::Proxy => {
            let target = height_of_wanted(memory, own, first, Wanted::Target)?;
            let coercion = height_of_wanted(memory, own, first + 8, Wanted::Middle)?;
            Some(target.max(coercion))
        }
        Kind::Inject => {
            let before = height_of_wanted(memory, own, first, Wanted::Coercion)?;
            let kept = height_of_wanted(memory, own, first + 8, Wanted::TypeAddress)?;
            Some(before.max(kept))
        }
        Kind::Project => {
            let wanted = height_of_wanted(memory, own, first, Wanted::TypeAddress)?;
            let label = height_of_wanted(memory, own, first + 8, Wanted::Anything)?;
            let after = height_of_wanted(memory, own, first + 8 + 8, Wanted::Coercion)?;
            Some(wanted.max(label).max(after))
        }
        Kind::Fun | Kind::Tup | Kind::Ref | Kind::Vec => height_of_coercions(memory, own, count),
        _ => Some(0),
    }
}

impl Kind {
    // Whether an object of this kind may have this height, where its parts are as high as this.
    fn allows_height(self, height: u16, parts: u16) -> bool
        ensures { IsTrue result ↔ HasHeight self height parts }
    {
        match self {
            Kind::Fail => height == 0,
            Kind::Fun | Kind::Tup | Kind::Ref | Kind::Vec => {
                u32::from(height) == u32::from(parts) + 1
            }
            Kind::Inject | Kind::Project => height == parts,
            _ => true,
        }
    }
}

/// The header of the whole object that stands at an address and ends at or before an end: none exactly where there is
/// none. It takes no memory.
pub fn whole_object<W: Words>(memory: &W, area: Area, end: u64, at: u64) -> Option<Header>
    ensures whole { IfSome result (λ header. IsWhole
        (word_within (W.first memory.now) (W.end memory.now) (W.word_at memory.now)) area end at header) }
    ensures none { IfNone result ((header : AHeader) → ¬ IsWhole
        (word_within (W.first memory.now) (W.end memory.now) (W.word_at memory.now)) area end at header) }
{
    let header = header_at(memory, at)?;
    let kind = Kind::from_number(header.kind)?;
    let size = 8 + 8 * u64::from(header.count);
    if !kind.allows_count(header.count) || end < size || end - size < at {
        return None;
    }
    if area == Area::Region && kind.is_type() {
        return None;
    }
    let parts = height_of_parts(memory, at, kind, header.count)?;
    if !kind.allows_height(header.height, parts) {
        return None;
    }
    Some(header)
}
