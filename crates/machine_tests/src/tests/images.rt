// Images as bytes: what is one, what its header and labels say, and the first fault of what is none.

use assembler::image::{Image, ImageFault, is_image, read_image};
use grift_base::lists::Bytes;
use grift_base::places::Pos;
use std::alloc::Global;
use std::process::Abort;

// The smallest image that answers 42, in groups of eight bytes, the first byte of a group the highest.
pub(crate) const SMALLEST: [u64; 9] = [
    0x4752_4946_5452_5631,
    0x4800_0000_0000_0000,
    0x0000_0000_0000_0000,
    0x0800_0000_0000_0000,
    0x0000_0000_0000_0000,
    0x0000_0000_0000_0000,
    0x0000_0000_0000_0000,
    0x0000_0000_0000_0000,
    0x9305_a002_7300_0000,
];

// Eight bytes of statics, sixteen of code and two labels.
const LABELLED: [u64; 13] = [
    0x4752_4946_5452_5631,
    0x6800_0000_0000_0000,
    0x0800_0000_0000_0000,
    0x1000_0000_0000_0000,
    0x0200_0000_0000_0000,
    0x0400_0000_0000_0000,
    0x0000_0000_0000_0000,
    0x0000_0000_0000_0000,
    0x1112_1314_1516_1718,
    0x2122_2324_2526_2728,
    0x3132_3334_3536_3738,
    0x0300_0000_0700_0000,
    0x0001_0000_0200_0000,
];

// The bytes of such groups.
pub(crate) fn bytes_of(rt: &impl Abort, alloc: Global, groups: &[u64]) -> Bytes {
    let mut bytes = Bytes::new(alloc);
    for group in groups {
        bytes.extend(&group.to_be_bytes()).expect(rt, "memory");
    }
    bytes
}

// Whether bytes are those of such groups.
pub(crate) fn are_groups(rt: &impl Abort, alloc: Global, bytes: &[u8], groups: &[u64]) -> bool {
    let wanted = bytes_of(rt, alloc, groups);
    bytes == wanted.as_slice()
}

// The image of such groups.
pub(crate) fn image_of_groups(rt: &impl Abort, alloc: Global, groups: &[u64]) -> Image {
    let bytes = bytes_of(rt, alloc, groups);
    read_image(alloc, bytes.as_slice()).expect(rt, "an image")
}

// Whether bytes have this first fault, or, where it is none, are an image.
fn have_fault(alloc: Global, bytes: &[u8], fault: Option<ImageFault>) -> bool {
    is_image(bytes) == fault.is_none() && read_image(alloc, bytes).err() == fault
}

// Whether the smallest image without these many bytes has this first fault.
fn cut_has_fault(rt: &impl Abort, alloc: Global, cut: usize, fault: Option<ImageFault>) -> bool {
    let bytes = bytes_of(rt, alloc, &SMALLEST);
    let whole = bytes.as_slice();
    match whole.get(..whole.len().wrapping_sub(cut)) {
        Some(first) => have_fault(alloc, first, fault),
        None => false,
    }
}

#[test]
fn images_are_whole(rt: HostRuntime) {
    for (cut, fault) in [
        (0, None),
        (1, Some(ImageFault::BadLength)),
        (9, Some(ImageFault::BadLength)),
        (65, Some(ImageFault::BadMagic)),
        (72, Some(ImageFault::BadMagic)),
    ] {
        assert!(&rt;
            cut_has_fault(&rt, rt.alloc(), cut, fault),
            "without {cut} bytes"
        );
    }
}

// Whether the image of such groups has their bytes.
fn keeps_bytes(rt: &impl Abort, alloc: Global, groups: &[u64]) -> bool {
    let image = image_of_groups(rt, alloc, groups);
    are_groups(rt, alloc, image.bytes(), groups)
}

#[test]
fn an_image_keeps_its_bytes(rt: HostRuntime) {
    assert!(&rt; keeps_bytes(&rt, rt.alloc(), &SMALLEST));
}

// The smallest image with these groups changed.
fn changed(rt: &impl Abort, alloc: Global, changes: &[(usize, u64)]) -> Bytes {
    let mut groups = SMALLEST;
    for (place, group) in changes {
        if let Some(old) = groups.get_mut(*place) {
            *old = *group;
        }
    }
    bytes_of(rt, alloc, &groups)
}

// Whether it has this first fault.
fn changed_has_fault(
    rt: &impl Abort,
    alloc: Global,
    changes: &[(usize, u64)],
    fault: ImageFault,
) -> bool {
    let bytes = changed(rt, alloc, changes);
    have_fault(alloc, bytes.as_slice(), Some(fault))
}

// Groups that are changed, and the fault. The last row has sections whose sum wraps to the right length.
const CHANGES: [(&[(usize, u64)], ImageFault); 13] = [
    (&[(0, 0x0052_4946_5452_5631)], ImageFault::BadMagic),
    (&[(1, 0x4900_0000_0000_0000)], ImageFault::BadLength),
    (&[(2, 0x0400_0000_0000_0000)], ImageFault::BadSection),
    (&[(2, 0x0800_0000_0000_0000)], ImageFault::BadSection),
    (&[(3, 0x0000_0000_0000_0000)], ImageFault::BadSection),
    (&[(3, 0xf8ff_ffff_ffff_ffff)], ImageFault::BadSection),
    (&[(4, 0xffff_ffff_0000_0000)], ImageFault::BadSection),
    (&[(4, 0x0100_0000_0000_0000)], ImageFault::BadSection),
    (&[(5, 0x0200_0000_0000_0000)], ImageFault::BadSection),
    (&[(5, 0x0800_0000_0000_0000)], ImageFault::BadSection),
    (&[(6, 0x0000_0000_0000_0001)], ImageFault::BadSection),
    (&[(7, 0x0100_0000_0000_0000)], ImageFault::BadSection),
    (
        &[(2, 0x1000_0000_0000_0000), (3, 0xf8ff_ffff_ffff_ffff)],
        ImageFault::BadSection,
    ),
];

// Each change has the fault of its row.
fn all_have_faults(rt: &impl Abort, alloc: Global, rows: &[(&'static [(usize, u64)], ImageFault)]) {
    for (changes, fault) in rows {
        assert!(rt;
            changed_has_fault(rt, alloc, changes, *fault),
            "{changes:?}"
        );
    }
}

#[test]
fn each_field_is_tested(rt: HostRuntime) {
    all_have_faults(&rt, rt.alloc(), &CHANGES);
}

// The labels of the second image.
const FIRST: Pos = Pos { line: 3, col: 7 };

const SECOND: Pos = Pos { line: 256, col: 2 };

// The lengths of an image, of its statics and of its code, its entry, and how many labels it has.
fn numbers_of(image: &Image) -> [u64; 5] {
    [
        image.bytes().len() as u64,
        image.statics_len(),
        image.code_len(),
        image.entry(),
        u64::from(image.label_count()),
    ]
}

// The numbers of the second image, and its labels 0, 1 and 2.
fn told(rt: &impl Abort, alloc: Global) -> ([u64; 5], [Option<Pos>; 3]) {
    let image = image_of_groups(rt, alloc, &LABELLED);
    let labels = [image.label(0), image.label(1), image.label(2)];
    (numbers_of(&image), labels)
}

// Whether an image has both labels.
fn has_labels(rt: &impl Abort, alloc: Global, image: &Image) -> bool {
    let labels = image.labels(alloc).expect(rt, "memory");
    labels.as_slice() == [FIRST, SECOND].as_slice()
}

// Whether the second image is loaded as it should be, and has both labels.
fn is_told(rt: &impl Abort, alloc: Global) -> bool {
    let image = image_of_groups(rt, alloc, &LABELLED);
    are_groups(rt, alloc, image.loaded(), &LABELLED[8..11]) && has_labels(rt, alloc, &image)
}

#[test]
fn an_image_tells_its_parts(rt: HostRuntime) {
    let labels = [Some(FIRST), Some(SECOND), None];
    assert!(&rt; told(&rt, rt.alloc()) == ([104, 8, 16, 4, 2], labels));
    assert!(&rt; is_told(&rt, rt.alloc()));
}
