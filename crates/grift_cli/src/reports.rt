// What a call of the program reports.

ghost use Rattle.std.specs.Prelude.{◌≡◌, ◌++◌, codes, IfOk, OnErr, OnOk};
ghost use Rattle.grift_cli.specs.Reporting.{report_status, report_line, fault_line, bad_image_line};
ghost use Rattle.grift_cli.specs.Reporting.{bytes_of_line, IsMadeLine, refusal_line, load_report, source_report};
ghost use Rattle.grift_base.specs.VerdictLine.{verdict_text};
ghost use Rattle.grift_cli.specs.Reporting.{image_report, fault_status, verdict_status, space_lines};
ghost use Rattle.grift_cli.specs.Lines.{number_line};
ghost use Rattle.listing.specs.CodeLines.{hex_text};

use assembler::image::ImageFault;
use grift_base::lists::{OutOfMemory, Text};
use grift_base::refusals::{FrontFault, Refusal};
use grift_base::shelves::LoadFault;
use grift_base::sinks::SinkFault;
use grift_base::verdicts::{Verdict, verdict_line};
use itoa::Buffer;
use listing::lines::hex_text;
use machine_words::faults::MachineFault;
use object_layout::walks::SpaceReport;
use std::alloc::Global;

/// Why a file holds no image.
#[derive(Clone, Copy, PartialEq, Eq)]
pub enum BadImage {
    /// It doesn't begin as an image does.
    Magic,
    /// It has another length than it tells.
    Length,
    /// A part of it isn't where, or as, it has to be.
    Section,
}

/// What is told of the storage of a run: the report of its region as the machine stopped, and the greatest height of
/// the coercions of the program's casts.
#[derive(Clone, Copy, PartialEq, Eq)]
pub struct Space {
    pub report: SpaceReport,
    pub tallest: u32,
}

/// What a call of the program reports.
#[derive(Clone, Copy, PartialEq, Eq)]
pub enum Report {
    /// The run of the image has this verdict.
    HasVerdict(Verdict),
    /// The run of the image has this verdict, and this is told of its storage.
    HasSpace(Verdict, Space),
    /// The run of a stranger's image went wrong by this fault.
    HasFault(MachineFault),
    /// The source was elaborated, and the lines of a check were put.
    Checked,
    /// The source was elaborated, and the lines of an audit were put.
    Audited,
    /// The source was elaborated, and what the command shows of it was put.
    Shown,
    /// The source is no program.
    Refused(Refusal),
    /// The file holds no image.
    ImageRefused(BadImage),
    /// The words are no command.
    WordsRefused,
    /// The file could not be read.
    LoadFailed,
    /// The file has more bytes than a file of its command may have.
    TooLong,
    /// A sink failed.
    PutFailed,
    /// No memory was left.
    NoMemory,
}

/// A line for the user: one that takes no memory, or one that was made.
#[derive(Drop)]
pub enum Line {
    Fixed(&'static [u8]),
    Made(Text),
}

impl Line {
    /// The bytes of the line.
    pub fn as_slice(&self) -> &[u8]
        ensures { result.now ≡ bytes_of_line self.now }
    {
        match self {
            Line::Fixed(bytes) => bytes,
            Line::Made(text) => text.as_slice(),
        }
    }
}

/// The status of a report.
pub fn status_of(report: Report) -> u8
    ensures { result ≡ report_status report }
{
    match report {
        Report::HasVerdict(verdict) | Report::HasSpace(verdict, _) => status_of_verdict(verdict),
        Report::Checked | Report::Audited | Report::Shown => 0,
        Report::Refused(_) => 1,
        Report::WordsRefused => 2,
        Report::LoadFailed => 8,
        Report::PutFailed => 9,
        Report::NoMemory => 10,
        Report::HasFault(_) => 11,
        Report::TooLong => 12,
        Report::ImageRefused(_) => 13,
    }
}

// The status of a verdict.
fn status_of_verdict(verdict: Verdict) -> u8
    ensures { result ≡ verdict_status verdict }
{
    match verdict {
        Verdict::Answer(_) => 0,
        Verdict::Blame(_) => 3,
        Verdict::Trap(_) => 4,
        Verdict::RegionOut => 5,
        Verdict::StackOut => 6,
        Verdict::StepsSpent => 7,
    }
}

/// The line of a report, with its line feed, and those of storage behind it; a check, an audit or a listing that went
/// well has none.
pub fn line_of(alloc: Global, report: Report) -> Result<Line, OutOfMemory>
    ensures ok { IfOk result (λ line. bytes_of_line line ≡ report_line report) }
    ensures err { OnErr result (IsMadeLine report) }
{
    match report {
        Report::HasVerdict(verdict) => verdict_line(alloc, &verdict).map(Line::Made),
        Report::HasSpace(verdict, space) => lines_in_space(alloc, verdict, space).map(Line::Made),
        Report::HasFault(fault) => fault_line(alloc, fault).map(Line::Made),
        Report::Checked | Report::Audited | Report::Shown => Ok(Line::Fixed(b"")),
        Report::Refused(refusal) => refusal_line(alloc, refusal).map(Line::Made),
        Report::ImageRefused(fault) => Ok(Line::Fixed(bad_image_line(fault))),
        Report::WordsRefused => Ok(Line::Fixed(b"words refused\n")),
        Report::LoadFailed => Ok(Line::Fixed(b"load failed\n")),
        Report::TooLong => Ok(Line::Fixed(b"file too long\n")),
        Report::PutFailed => Ok(Line::Fixed(b"put failed\n")),
        Report::NoMemory => Ok(Line::Fixed(b"out of memory\n")),
    }
}

// The line of a verdict, and the six lines of storage.
fn lines_in_space(alloc: Global, verdict: Verdict, space: Space) -> Result<Text, OutOfMemory>
    ensures { IfOk result (λ text. text ≡ verdict_text verdict ++ codes "\n" ++ space_lines space) }
{
    let mut text = verdict_line(alloc, &verdict)?;
    push_number(&mut text, b"space bytes ", space.report.bytes)?;
    push_number(&mut text, b"space objects ", space.report.objects)?;
    push_number(&mut text, b"space proxies ", space.report.proxies)?;
    push_number(&mut text, b"space stacked ", space.report.stacked)?;
    push_number(
        &mut text,
        b"space highest ",
        u64::from(space.report.highest),
    )?;
    push_number(&mut text, b"space tallest ", u64::from(space.tallest))?;
    Ok(text)
}

/// Adds a line of these words and a number, in decimal. `OutOfMemory` comes where no memory is left for it.
pub fn push_number(text: &mut Text, words: &[u8], number: u64) -> Result<(), OutOfMemory>
    ensures { OnOk result (text.new ≡ text.old ++ number_line words.now number) }
{
    text.extend(words)?;
    text.extend(Buffer::new().format(number).as_bytes())?;
    text.extend(b"\n")
}

// The line of an image that went wrong.
fn fault_line(alloc: Global, fault: MachineFault) -> Result<Text, OutOfMemory>
    ensures { IfOk result (λ line. line ≡ fault_line fault) }
{
    match fault {
        MachineFault::Undefined(pc) => address_line(alloc, b"machine undefined ", pc),
        MachineFault::BadAddress(pc) => address_line(alloc, b"machine address ", pc),
        MachineFault::Misaligned(pc) => address_line(alloc, b"machine misaligned ", pc),
    }
}

// The line of these words and an address.
fn address_line(alloc: Global, words: &[u8], address: u64) -> Result<Text, OutOfMemory>
    ensures { IfOk result (λ line. line ≡ words.now ++ hex_text address ++ codes "\n") }
{
    let mut line = Text::from_slice(alloc, words)?;
    line.extend(hex_text(alloc, address)?.as_bytes())?;
    line.extend(b"\n")?;
    Ok(line)
}

// The line of a file that holds no image.
fn bad_image_line(fault: BadImage) -> &'static [u8]
    ensures { result.now ≡ bad_image_line fault }
{
    match fault {
        BadImage::Magic => b"bad image magic\n",
        BadImage::Length => b"bad image length\n",
        BadImage::Section => b"bad image section\n",
    }
}

// The line of a refusal.
fn refusal_line(alloc: Global, refusal: Refusal) -> Result<Text, OutOfMemory>
    ensures { IfOk result (λ line. line ≡ refusal_line refusal) }
{
    let mut line = Text::from_slice(alloc, b"refused ")?;
    line.extend(refusal.kind.text().as_bytes())?;
    line.extend(b" ")?;
    line.extend(Buffer::new().format(refusal.pos.line).as_bytes())?;
    line.extend(b":")?;
    line.extend(Buffer::new().format(refusal.pos.col).as_bytes())?;
    line.extend(b"\n")?;
    Ok(line)
}

/// What a fault of the shelf is reported as.
pub fn report_of_load(fault: LoadFault) -> Report
    ensures { result ≡ load_report fault }
{
    match fault {
        LoadFault::Failed => Report::LoadFailed,
        LoadFault::TooLong => Report::TooLong,
        LoadFault::OutOfMemory => Report::NoMemory,
    }
}

/// What a fault of the source is reported as.
pub fn report_of_source(fault: FrontFault) -> Report
    ensures { result ≡ source_report fault }
{
    match fault {
        FrontFault::Refused(refusal) => Report::Refused(refusal),
        FrontFault::OutOfMemory => Report::NoMemory,
    }
}

/// What a fault of the bytes of an image is reported as.
pub fn report_of_image(fault: ImageFault) -> Report
    ensures { result ≡ image_report fault }
{
    match fault {
        ImageFault::BadMagic => Report::ImageRefused(BadImage::Magic),
        ImageFault::BadLength => Report::ImageRefused(BadImage::Length),
        ImageFault::BadSection => Report::ImageRefused(BadImage::Section),
        ImageFault::OutOfMemory => Report::NoMemory,
    }
}

/// The status that a fault of the sink for the line leads to.
pub fn status_of_fault(fault: SinkFault) -> u8
    ensures { result ≡ fault_status fault }
{
    match fault {
        SinkFault::Failed => 9,
        SinkFault::OutOfMemory => 10,
    }
}
