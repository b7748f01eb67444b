// The words of the language.

use form_table::words::{Mark, TypeWord, Word, mark_of, operand_count, operator_text};
use grift_base::operators::PrimOp;

const MARKS: &[(&str, Mark)] = &[
    ("lambda", Mark::Reserved(Word::Lambda)),
    ("->", Mark::Reserved(Word::Arrow)),
    ("read-int", Mark::Reserved(Word::Operator(PrimOp::ReadInt))),
    ("%%", Mark::Reserved(Word::Operator(PrimOp::Rem))),
    (
        "vector-set!",
        Mark::Reserved(Word::Operator(PrimOp::VectorSet)),
    ),
    ("Int", Mark::Free(Some(TypeWord::Int))),
    ("lambdas", Mark::Free(None)),
    ("int", Mark::Free(None)),
];

#[test]
fn symbols_are_told_apart(rt: HostRuntime) {
    for (text, mark) in MARKS {
        assert!(rt; mark_of(text.as_bytes()) == *mark);
    }
}

#[test]
fn operators_have_their_operands(rt: HostRuntime) {
    assert!(rt; operand_count(PrimOp::VectorSet) == 3);
    assert!(rt; operand_count(PrimOp::BoxSet) == 2);
    assert!(rt; operand_count(PrimOp::Not) == 1);
    assert!(rt; operand_count(PrimOp::Newline) == 0);
    assert!(rt; operator_text(PrimOp::MakeBox) == "box");
}
