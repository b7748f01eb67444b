// The kinds of refusals.

use grift_base::lists::OutOfMemory;
use grift_base::refusals::{FrontFault, RefusalKind};

const KINDS: &[(RefusalKind, u8, &str)] = &[
    (RefusalKind::BadByte, 1, "bad-byte"),
    (RefusalKind::Unclosed, 2, "unclosed"),
    (RefusalKind::Unopened, 3, "unopened"),
    (RefusalKind::NumberRange, 4, "number-range"),
    (RefusalKind::TooDeep, 5, "too-deep"),
    (RefusalKind::Empty, 6, "empty"),
    (RefusalKind::NotInProfile, 7, "not-in-profile"),
    (RefusalKind::BadForm, 8, "bad-form"),
    (RefusalKind::RepeatedName, 9, "repeated-name"),
    (RefusalKind::TooWide, 10, "too-wide"),
    (RefusalKind::TooManyForms, 11, "too-many-forms"),
    (RefusalKind::ReservedName, 12, "reserved-name"),
    (RefusalKind::Unbound, 13, "unbound"),
    (RefusalKind::NotConsistent, 14, "not-consistent"),
    (RefusalKind::NotFunction, 15, "not-function"),
    (RefusalKind::WrongCount, 16, "wrong-count"),
    (RefusalKind::NotTuple, 17, "not-tuple"),
    (RefusalKind::NoSuchPart, 18, "no-such-part"),
    (RefusalKind::NotRef, 19, "not-ref"),
    (RefusalKind::NotVector, 20, "not-vector"),
    (RefusalKind::TypeTooLarge, 21, "type-too-large"),
];

#[test]
fn kinds_have_numbers_and_texts(rt: HostRuntime) {
    for (kind, number, text) in KINDS {
        assert!(rt; kind.number() == *number && kind.text() == *text);
    }
}

#[test]
fn want_of_memory_is_a_fault(rt: HostRuntime) {
    assert!(rt; FrontFault::from(OutOfMemory) == FrontFault::OutOfMemory);
}
