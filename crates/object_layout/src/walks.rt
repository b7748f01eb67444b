// A walk along a row of whole objects.

ghost use Rattle.std.specs.Prelude.{◌≡◌, ◌+◌, ◌≤◌, ◌<◌, ◌^◌, max, IfOk, IfErr, IsTrue};
ghost use Rattle.grift_base.specs.Words.{word_within};
ghost use Rattle.object_layout.specs.Wholes.{height_of};
ghost use Rattle.object_layout.specs.Reports.{proxy_count, stacked_count, proxy_height, IsReported, IsTornAt};
ghost use Rattle.object_layout.specs.Reports.{header_behind, is_proxy, is_some_proxy};

use crate::headers::Header;
use crate::kinds::Kind;
use crate::wholes::{Area, header_at, whole_object};
use grift_base::words::Words;

/// What fills a range of storage.
#[derive(Clone, Copy, PartialEq, Eq)]
pub struct SpaceReport {
    /// The bytes of the range.
    pub bytes: u64,
    /// The objects in it.
    pub objects: u64,
    /// The proxies among these.
    pub proxies: u64,
    /// The proxies that stand on a proxy.
    pub stacked: u64,
    /// The greatest height of a proxy's coercion, 0 where there is no proxy.
    pub highest: u32,
}

/// Why a range is no row of whole objects.
#[derive(Clone, Copy, PartialEq, Eq, Debug)]
pub enum WalkFault {
    /// The first address at which no whole object stands that ends in the range.
    Torn(u64),
}

// The header of the object whose address stands at an address.
fn header_behind<W: Words>(memory: &W, at: u64) -> Option<Header>
    ensures { result ≡ header_behind
        (word_within (W.first memory.now) (W.end memory.now) (W.word_at memory.now)) at }
{
    header_at(memory, memory.word(at)?)
}

// A report with one object more.
fn with_object<W: Words>(report: SpaceReport, memory: &W, at: u64, header: Header) -> SpaceReport
    requires objects { report.objects + 1 < 2 ^ 64 }
    requires proxies { report.proxies ≤ report.objects }
    requires stacked { report.stacked ≤ report.proxies }
    requires inside { IsTrue (is_proxy header) → at + 24 < 2 ^ 64 }
    ensures bytes { result.bytes ≡ report.bytes }
    ensures objects { result.objects ≡ report.objects + 1 }
    ensures proxies { result.proxies ≡ report.proxies + proxy_count at header }
    ensures stacked { result.stacked ≡ report.stacked + stacked_count
        (word_within (W.first memory.now) (W.end memory.now) (W.word_at memory.now)) at header }
    ensures highest { result.highest ≡ max report.highest (proxy_height
        (word_within (W.first memory.now) (W.end memory.now) (W.word_at memory.now)) at header) }
{
    let mut report = report;
    report.objects += 1;
    if header.kind == Kind::Proxy.number() {
        let target = header_behind(memory, at + 8);
        let coercion = header_behind(memory, at + 8 + 8);
        report.proxies += 1;
        report.stacked += u64::from(is_some_proxy(target));
        report.highest = report.highest.max(height_of(coercion));
    }
    report
}

fn is_some_proxy(header: Option<Header>) -> bool
    ensures { result ≡ is_some_proxy header }
{
    matches!(header, Some(header) if header.kind == Kind::Proxy.number())
}

fn height_of(header: Option<Header>) -> u32
    ensures { result ≡ height_of header }
{
    header.map_or(0, |header| u32::from(header.height))
}

/// The report of the range between two addresses, which counts as a part of a region; or the first address in it at
/// which no whole object stands that ends in the range. It takes no memory, and its time is linear in the range.
pub fn walk<W: Words>(memory: &W, from: u64, to: u64) -> Result<SpaceReport, WalkFault>
    requires { from ≤ to }
    ensures report { IfOk result (IsReported
        (word_within (W.first memory.now) (W.end memory.now) (W.word_at memory.now)) from to) }
    ensures torn { IfErr result (IsTornAt
        (word_within (W.first memory.now) (W.end memory.now) (W.word_at memory.now)) from to) }
{
    let mut report = SpaceReport {
        bytes: to - from,
        objects: 0,
        proxies: 0,
        stacked: 0,
        highest: 0,
    };
    let mut at = from;
    while at < to {
        let Some(header) = whole_object(memory, Area::Region, to, at) else {
            return Err(WalkFault::Torn(at));
        };
        report = with_object(report, memory, at, header);
        at += 8 + 8 * u64::from(header.count);
    }
    Ok(report)
}
