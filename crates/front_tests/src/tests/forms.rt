// Texts that are read and parsed: refusals with their kinds and places, and programs as they are shown.

use form_table::words::operator_text;
use grift_base::lists::Bytes;
use grift_base::places::Pos;
use grift_base::refusals::{FrontFault, Refusal, RefusalKind};
use sexpr_reader::read;
use std::alloc::Global;
use std::fmt::Write;
use std::process::Abort;
use surface_syntax::parse_program;
use surface_trees::exprs::{Bindings, Expr, ExprList, ExprNode, LambdaExpr, Members, Program};
use surface_trees::names::Ident;
use surface_trees::types::{Params, TypeExpr, TypeExprs, TypeNode};
use type_graph::rows::Row;

// The program of a text that is short enough.
fn program(rt: &impl Abort, alloc: Global, text: &[u8]) -> Program {
    assert!(rt; text.len() <= 262144);
    let forms = read(alloc, text).expect(rt, "a text that is read");
    parse_program(alloc, &forms).expect(rt, "a program")
}

// The refusal of a text that is short enough, and none where it is a program.
fn refusal(rt: &impl Abort, alloc: Global, text: &[u8]) -> Option<Refusal> {
    assert!(rt; text.len() <= 262144);
    let forms = read(alloc, text).expect(rt, "a text that is read");
    match parse_program(alloc, &forms) {
        Ok(_) => None,
        Err(FrontFault::Refused(refusal)) => Some(refusal),
        Err(FrontFault::OutOfMemory) => panic!(rt; "no memory"),
    }
}

// Writes a text.
fn put(rt: &impl Abort, out: &mut String, text: &str) {
    out.push_str(text).expect(rt, "memory");
}

fn show_place(rt: &impl Abort, out: &mut String, pos: Pos) {
    let line = pos.line;
    let col = pos.col;
    write!(out, "@{line}:{col}").expect(rt, "memory");
}

fn show_name(rt: &impl Abort, out: &mut String, name: &Ident) {
    match name {
        Ident::Source(bytes) => put(
            rt,
            out,
            str::from_utf8(bytes.as_slice()).expect(rt, "a text"),
        ),
        Ident::Fresh(number) => write!(out, "%{number}").expect(rt, "memory"),
    }
}

fn show_row(rt: &impl Abort, out: &mut String, row: &Row) {
    let word = match row {
        Row::Int => "Int",
        Row::Bool => "Bool",
        Row::Unit => "Unit",
        Row::Dyn => "Dyn",
        _ => "?",
    };
    put(rt, out, word);
}

// Writes a type with the place of each of its parts.
#[cycle(show_type)]
fn show_type(rt: &impl Abort, out: &mut String, ty: &TypeExpr) {
    match &ty.node {
        TypeNode::Base(row) => show_row(rt, out, row),
        TypeNode::Fun(parameters, answer) => {
            put(rt, out, "(");
            show_types(rt, out, parameters);
            put(rt, out, "-> ");
            show_type(rt, out, answer);
            put(rt, out, ")");
        }
        TypeNode::Tuple(parts) => {
            put(rt, out, "(Tuple ");
            show_types(rt, out, parts);
            put(rt, out, ")");
        }
        TypeNode::Ref(content) => {
            put(rt, out, "(Ref ");
            show_type(rt, out, content);
            put(rt, out, ")");
        }
        TypeNode::Vect(content) => {
            put(rt, out, "(Vect ");
            show_type(rt, out, content);
            put(rt, out, ")");
        }
    }
    show_place(rt, out, ty.pos);
}

#[cycle(show_type)]
fn show_types(rt: &impl Abort, out: &mut String, mut list: &TypeExprs) {
    while let TypeExprs::Cons(first, rest) = list {
        show_type(rt, out, first);
        put(rt, out, " ");
        list = rest;
    }
}

fn show_written(rt: &impl Abort, out: &mut String, written: &Option<TypeExpr>) {
    if let Some(ty) = written {
        put(rt, out, " : ");
        show_type(rt, out, ty);
    }
}

fn show_params(rt: &impl Abort, out: &mut String, params: &Params) {
    for param in params.as_slice() {
        put(rt, out, "[");
        show_name(rt, out, &param.name);
        show_written(rt, out, &param.ty);
        put(rt, out, "]");
        show_place(rt, out, param.pos);
    }
}

// Writes an expression with the place of each of its parts.
#[cycle(show)]
fn show(rt: &impl Abort, out: &mut String, expr: &Expr) {
    match &expr.node {
        ExprNode::Int(number) => write!(out, "{number}").expect(rt, "memory"),
        ExprNode::Bool(truth) => put(rt, out, if *truth { "#t" } else { "#f" }),
        ExprNode::Unit => put(rt, out, "()"),
        ExprNode::Name(name) => show_name(rt, out, name),
        ExprNode::Lambda(lambda) => return show_lambda(rt, out, lambda),
        ExprNode::Call(function, arguments) => {
            put(rt, out, "(");
            show(rt, out, function);
            show_all(rt, out, arguments);
        }
        ExprNode::Let(bindings, body) => {
            put(rt, out, "(let (");
            show_lets(rt, out, bindings);
            show_all(rt, out, body);
        }
        ExprNode::Letrec(members, body) => {
            put(rt, out, "(letrec (");
            show_letrecs(rt, out, members);
            show_all(rt, out, body);
        }
        ExprNode::If(condition, on_true, on_false) => {
            put(rt, out, "(if ");
            show(rt, out, condition);
            put(rt, out, " ");
            show(rt, out, on_true);
            put(rt, out, " ");
            show(rt, out, on_false);
            put(rt, out, ")");
        }
        ExprNode::Begin(body) => {
            put(rt, out, "(begin");
            show_all(rt, out, body);
        }
        ExprNode::Ascribe(inner, ty) => {
            put(rt, out, "(: ");
            show(rt, out, inner);
            put(rt, out, " ");
            show_type(rt, out, ty);
            put(rt, out, ")");
        }
        ExprNode::Tuple(parts) => {
            put(rt, out, "(tuple");
            show_all(rt, out, parts);
        }
        ExprNode::Proj(tuple, part, at) => {
            put(rt, out, "(tuple-proj ");
            show(rt, out, tuple);
            write!(out, " {part}").expect(rt, "memory");
            show_place(rt, out, *at);
            put(rt, out, ")");
        }
        ExprNode::Prim(operator, operands) => {
            put(rt, out, "(");
            put(rt, out, operator_text(*operator));
            show_all(rt, out, operands);
        }
    }
    show_place(rt, out, expr.pos);
}

// Writes expressions, each behind a blank, and a closing bracket.
#[cycle(show)]
fn show_all(rt: &impl Abort, out: &mut String, mut list: &ExprList) {
    while let ExprList::Cons(first, rest) = list {
        put(rt, out, " ");
        show(rt, out, first);
        list = rest;
    }
    put(rt, out, ")");
}

#[cycle(show)]
fn show_lambda(rt: &impl Abort, out: &mut String, lambda: &LambdaExpr) {
    put(rt, out, "(lambda (");
    show_params(rt, out, &lambda.params);
    put(rt, out, ")");
    show_written(rt, out, &lambda.result);
    show_all(rt, out, &lambda.body);
    show_place(rt, out, lambda.pos);
}

#[cycle(show)]
fn show_lets(rt: &impl Abort, out: &mut String, mut list: &Bindings) {
    while let Bindings::Cons(first, rest) = list {
        put(rt, out, "[");
        show_name(rt, out, &first.name);
        show_written(rt, out, &first.ty);
        put(rt, out, " ");
        show(rt, out, &first.value);
        put(rt, out, "]");
        list = rest;
    }
    put(rt, out, ")");
}

#[cycle(show)]
fn show_letrecs(rt: &impl Abort, out: &mut String, mut list: &Members) {
    while let Members::Cons(first, rest) = list {
        put(rt, out, "[");
        show_name(rt, out, &first.name);
        show_written(rt, out, &first.ty);
        put(rt, out, " ");
        show_lambda(rt, out, &first.fun);
        put(rt, out, "]");
        list = rest;
    }
    put(rt, out, ")");
}

// What is shown of the program of a text.
fn shown(rt: &impl Abort, alloc: Global, text: &[u8]) -> String {
    let program = program(rt, alloc, text);
    let mut out = String::new(alloc);
    show(rt, &mut out, &program.body);
    out
}

// Whether this is shown of the program of a text.
fn is_shown(rt: &impl Abort, alloc: Global, text: &[u8], expected: &str) -> bool {
    shown(rt, alloc, text).as_str() == expected
}

// This is shown of each text.
fn are_shown(rt: &impl Abort, alloc: Global, rows: &[(&str, &str)]) {
    for (text, expected) in rows {
        assert!(rt; is_shown(rt, alloc, text.as_bytes(), expected), "{text}");
    }
}

// Constants, names, functions, calls and bindings.
const VALUES_AND_BINDINGS: &[(&str, &str)] = &[
    ("-5", "-5@1:1"),
    ("#f", "#f@1:1"),
    ("()", "()@1:1"),
    ("x", "x@1:1"),
    (
        "(lambda (x [y : Int]) x y)",
        "(lambda ([x]@1:10[y : Int@1:17]@1:12) x@1:23 y@1:25)@1:1",
    ),
    ("(lambda () : Dyn 1)", "(lambda () : Dyn@1:14 1@1:18)@1:1"),
    ("(f)", "(f@1:2)@1:1"),
    ("((f 1) x)", "((f@1:3 1@1:5)@1:2 x@1:8)@1:1"),
    (
        "(let ([x 1] [y : Int 2]) x y)",
        "(let ([x 1@1:10][y : Int@1:18 2@1:22]) x@1:26 y@1:28)@1:1",
    ),
    ("(let () 1)", "(let () 1@1:9)@1:1"),
    (
        "(letrec ([f (lambda () 1)] [g : (-> Int) (lambda (x) : Int 2)]) f)",
        "(letrec ([f (lambda () 1@1:24)@1:13][g : (-> Int@1:37)@1:33 (lambda ([x]@1:51) : Int@1:56 \
         2@1:60)@1:42]) f@1:65)@1:1",
    ),
];

#[test]
fn each_form_is_read(rt: HostRuntime) {
    are_shown(&rt, rt.alloc(), VALUES_AND_BINDINGS);
}

// Choices, sequences, types that are written, and tuples.
const CHOICES_AND_TUPLES: &[(&str, &str)] = &[
    ("(if 1 2 3)", "(if 1@1:5 2@1:7 3@1:9)@1:1"),
    ("(begin 1 2)", "(begin 1@1:8 2@1:10)@1:1"),
    (
        "(: 1 (Int Bool -> ()))",
        "(: 1@1:4 (Int@1:7 Bool@1:11 -> Unit@1:19)@1:6)@1:1",
    ),
    (
        "(: 1 (Tuple Unit (Ref Dyn) (Vect Int)))",
        "(: 1@1:4 (Tuple Unit@1:13 (Ref Dyn@1:23)@1:18 (Vect Int@1:34)@1:28 )@1:6)@1:1",
    ),
    ("(tuple 1 2)", "(tuple 1@1:8 2@1:10)@1:1"),
    ("(tuple-proj x 1)", "(tuple-proj x@1:13 1@1:15)@1:1"),
];

#[test]
fn choices_and_tuples_are_read(rt: HostRuntime) {
    are_shown(&rt, rt.alloc(), CHOICES_AND_TUPLES);
}

const BOXES_AND_VECTORS: &[(&str, &str)] = &[
    ("(box 1)", "(box 1@1:6)@1:1"),
    ("(unbox x)", "(unbox x@1:8)@1:1"),
    ("(box-set! x 1)", "(box-set! x@1:11 1@1:13)@1:1"),
    ("(make-vector 1 2)", "(make-vector 1@1:14 2@1:16)@1:1"),
    ("(vector-ref x 1)", "(vector-ref x@1:13 1@1:15)@1:1"),
    (
        "(vector-set! x 1 2)",
        "(vector-set! x@1:14 1@1:16 2@1:18)@1:1",
    ),
    ("(vector-length x)", "(vector-length x@1:16)@1:1"),
];

#[test]
fn each_operator_is_read(rt: HostRuntime) {
    are_shown(&rt, rt.alloc(), BOXES_AND_VECTORS);
}

// Operators on numbers and truth values, and those that print and read.
const NUMBERS: &[(&str, &str)] = &[
    ("(+ 1 2)", "(+ 1@1:4 2@1:6)@1:1"),
    ("(- 1 2)", "(- 1@1:4 2@1:6)@1:1"),
    ("(* 1 2)", "(* 1@1:4 2@1:6)@1:1"),
    ("(%/ 1 2)", "(%/ 1@1:5 2@1:7)@1:1"),
    ("(%% 1 2)", "(%% 1@1:5 2@1:7)@1:1"),
    ("(< 1 2)", "(< 1@1:4 2@1:6)@1:1"),
    ("(<= 1 2)", "(<= 1@1:5 2@1:7)@1:1"),
    ("(= 1 2)", "(= 1@1:4 2@1:6)@1:1"),
    ("(>= 1 2)", "(>= 1@1:5 2@1:7)@1:1"),
    ("(> 1 2)", "(> 1@1:4 2@1:6)@1:1"),
    ("(not #t)", "(not #t@1:6)@1:1"),
    ("(print-int 1)", "(print-int 1@1:12)@1:1"),
    ("(newline)", "(newline)@1:1"),
    ("(read-int)", "(read-int)@1:1"),
];

#[test]
fn each_operator_on_numbers_is_read(rt: HostRuntime) {
    are_shown(&rt, rt.alloc(), NUMBERS);
}

const CONNECTIVES: &[(&str, &str)] = &[
    ("(and)", "#t@1:1"),
    ("(and 1)", "1@1:6"),
    (
        "(and 1 2 3)",
        "(if 1@1:6 (if 2@1:8 3@1:10 #f@1:1)@1:1 #f@1:1)@1:1",
    ),
    ("(or)", "#f@1:1"),
    ("(or 1)", "1@1:5"),
    (
        "(or 1 2 3)",
        "(if 1@1:5 #t@1:1 (if 2@1:7 #t@1:1 3@1:9)@1:1)@1:1",
    ),
    (
        "(or (and 1 2) 3)",
        "(if (if 1@1:10 2@1:12 #f@1:5)@1:5 #t@1:1 3@1:15)@1:1",
    ),
];

#[test]
fn derived_forms_are_expanded(rt: HostRuntime) {
    are_shown(&rt, rt.alloc(), CONNECTIVES);
}

const LOOPS: &[(&str, &str)] = &[
    (
        "(repeat (i 0 9) 1)",
        "(let ([%0 : Int@1:1 0@1:12][%1 : Int@1:1 9@1:14]) (letrec ([%2 (lambda ([i : Int@1:1]@1:1) : \
         Unit@1:1 (if (< i@1:1 %1@1:1)@1:1 (begin 1@1:17 (%2@1:1 (+ i@1:1 1@1:1)@1:1)@1:1)@1:1 \
         ()@1:1)@1:1)@1:1]) (%2@1:1 %0@1:1)@1:1)@1:1)@1:1",
    ),
    (
        "(repeat (i 0 9) (s 0) i)",
        "(let ([%0 : Int@1:1 0@1:12][%1 : Int@1:1 9@1:14][%3 : Dyn@1:1 0@1:20]) (letrec ([%2 (lambda ([i \
         : Int@1:1]@1:1[s : Dyn@1:1]@1:1) : Dyn@1:1 (if (< i@1:1 %1@1:1)@1:1 (%2@1:1 (+ i@1:1 1@1:1)@1:1 \
         i@1:23)@1:1 s@1:1)@1:1)@1:1]) (%2@1:1 %0@1:1 %3@1:1)@1:1)@1:1)@1:1",
    ),
    (
        "(repeat (i 0 9) (s : Int 0) s)",
        "(let ([%0 : Int@1:1 0@1:12][%1 : Int@1:1 9@1:14][%3 : Int@1:22 0@1:26]) (letrec ([%2 (lambda \
         ([i : Int@1:1]@1:1[s : Int@1:22]@1:1) : Int@1:22 (if (< i@1:1 %1@1:1)@1:1 (%2@1:1 (+ i@1:1 \
         1@1:1)@1:1 s@1:29)@1:1 s@1:1)@1:1)@1:1]) (%2@1:1 %0@1:1 %3@1:1)@1:1)@1:1)@1:1",
    ),
    (
        "(repeat (i 0 1) (repeat (j 2 3) i))",
        "(let ([%3 : Int@1:1 0@1:12][%4 : Int@1:1 1@1:14]) (letrec ([%5 (lambda ([i : Int@1:1]@1:1) : \
         Unit@1:1 (if (< i@1:1 %4@1:1)@1:1 (begin (let ([%0 : Int@1:17 2@1:28][%1 : Int@1:17 3@1:30]) \
         (letrec ([%2 (lambda ([j : Int@1:17]@1:17) : Unit@1:17 (if (< j@1:17 %1@1:17)@1:17 (begin \
         i@1:33 (%2@1:17 (+ j@1:17 1@1:17)@1:17)@1:17)@1:17 ()@1:17)@1:17)@1:17]) (%2@1:17 \
         %0@1:17)@1:17)@1:17)@1:17 (%5@1:1 (+ i@1:1 1@1:1)@1:1)@1:1)@1:1 ()@1:1)@1:1)@1:1]) (%5@1:1 \
         %3@1:1)@1:1)@1:1)@1:1",
    ),
];

#[test]
fn loops_are_expanded(rt: HostRuntime) {
    are_shown(&rt, rt.alloc(), LOOPS);
}

const DEFINITIONS: &[(&str, &str)] = &[
    ("(define x 1)", "(let ([x 1@1:11]) ()@1:1)@1:1"),
    (
        "(define (f x) x)",
        "(letrec ([f (lambda ([x]@1:12) x@1:15)@1:1]) ()@1:1)@1:1",
    ),
    (
        "(define f : (-> Int) (lambda () 1))",
        "(letrec ([f : (-> Int@1:17)@1:13 (lambda () 1@1:33)@1:22]) ()@1:1)@1:1",
    ),
    (
        "(define x : Int 1) x",
        "(let ([x : Int@1:13 1@1:17]) x@1:20)@1:1",
    ),
    ("1 2 3", "(begin 1@1:1 (begin 2@1:3 3@1:5)@1:3)@1:1"),
    (
        "(define (f) : Int 1)\n(define g (lambda () 2))\n(f)",
        "(letrec ([f (lambda () : Int@1:15 1@1:19)@1:1][g (lambda () 2@2:22)@2:11]) (f@3:2)@3:1)@1:1",
    ),
    (
        "1 (define (f) 2) (define x 3) (define (g) 4) 5",
        "(begin 1@1:1 (letrec ([f (lambda () 2@1:15)@1:3]) (let ([x 3@1:28]) (letrec ([g (lambda () \
         4@1:43)@1:31]) 5@1:46)@1:31)@1:18)@1:3)@1:1",
    ),
];

#[test]
fn definitions_nest(rt: HostRuntime) {
    are_shown(&rt, rt.alloc(), DEFINITIONS);
}

// Whether a text has this refusal.
fn is_refused(
    rt: &impl Abort,
    alloc: Global,
    text: &[u8],
    kind: RefusalKind,
    line: u32,
    col: u32,
) -> bool {
    let pos = Pos { line, col };
    refusal(rt, alloc, text) == Some(Refusal { kind, pos })
}

// Each text has a refusal of this kind, at its line and column.
fn are_refused(rt: &impl Abort, alloc: Global, kind: RefusalKind, rows: &[(&str, u32, u32)]) {
    for (text, line, col) in rows {
        assert!(rt;
            is_refused(rt, alloc, text.as_bytes(), kind, *line, *col),
            "{text}"
        );
    }
}

// Forms without one of their parts, or with one too many.
const SHAPES: &[(&str, u32, u32)] = &[
    ("(if #t 1)", 1, 1),
    ("(if 1 2 3 4)", 1, 1),
    ("(lambda)", 1, 1),
    ("(lambda (x))", 1, 1),
    ("(lambda (x) : Int)", 1, 1),
    ("(let ([x 1]))", 1, 1),
    ("(let)", 1, 1),
    ("(letrec ())", 1, 1),
    ("(begin)", 1, 1),
    ("(: 1)", 1, 1),
    ("(: 1 Int 2)", 1, 1),
];

#[test]
fn forms_of_the_wrong_shape(rt: HostRuntime) {
    are_refused(&rt, rt.alloc(), RefusalKind::BadForm, SHAPES);
}

// The same of tuples, loops, operators and definitions.
const LATER_SHAPES: &[(&str, u32, u32)] = &[
    ("(tuple)", 1, 1),
    ("(tuple-proj 1)", 1, 1),
    ("(repeat (i 0 1))", 1, 1),
    ("(repeat (i 0 1) (a 1) 2 3)", 1, 1),
    ("(+ 1)", 1, 1),
    ("(newline 1)", 1, 1),
    ("(vector-set! 1 2)", 1, 1),
    ("(not)", 1, 1),
    ("(define x)", 1, 1),
    ("(define (f))", 1, 1),
    ("(define (f) : Int)", 1, 1),
    ("(define)", 1, 1),
    ("(define x : Int 1 2)", 1, 1),
    ("(read-int 1)", 1, 1),
];

#[test]
fn later_forms_of_the_wrong_shape(rt: HostRuntime) {
    are_refused(&rt, rt.alloc(), RefusalKind::BadForm, LATER_SHAPES);
}

// An operator with one operand too many, each of them 1.
fn with_one_too_many(rt: &impl Abort, alloc: Global, operator: &[u8], operands: u64) -> Bytes {
    let mut text = Bytes::new(alloc);
    text.extend(b"(").expect(rt, "memory");
    text.extend(operator).expect(rt, "memory");
    for _ in 0..operands {
        text.extend(b" 1").expect(rt, "memory");
    }
    text.extend(b" 1)").expect(rt, "memory");
    text
}

// Whether an operator with one operand too many is refused.
fn is_counted(rt: &impl Abort, alloc: Global, operator: &[u8], operands: u64) -> bool {
    let text = with_one_too_many(rt, alloc, operator, operands);
    is_refused(rt, alloc, text.as_slice(), RefusalKind::BadForm, 1, 1)
}

// Each operator has so many operands at most.
fn are_counted(rt: &impl Abort, alloc: Global, rows: &[(&str, u64)]) {
    for (operator, operands) in rows {
        assert!(rt;
            is_counted(rt, alloc, operator.as_bytes(), *operands),
            "{operator}"
        );
    }
}

// Each operator with its number of operands.
const OPERATORS: &[(&str, u64)] = &[
    ("+", 2),
    ("-", 2),
    ("*", 2),
    ("%/", 2),
    ("%%", 2),
    ("<", 2),
    ("<=", 2),
    ("=", 2),
    (">=", 2),
    (">", 2),
    ("not", 1),
    ("print-int", 1),
    ("newline", 0),
    ("read-int", 0),
    ("box", 1),
    ("unbox", 1),
    ("box-set!", 2),
    ("make-vector", 2),
    ("vector-ref", 2),
    ("vector-set!", 3),
    ("vector-length", 1),
];

#[test]
fn each_operator_has_its_number_of_operands(rt: HostRuntime) {
    are_counted(&rt, rt.alloc(), OPERATORS);
}

// Parameters and bindings.
const NAMES_AND_BINDINGS: &[(&str, u32, u32)] = &[
    ("(lambda x 1)", 1, 9),
    ("(lambda (1) 1)", 1, 10),
    ("(lambda ([x Int]) 1)", 1, 10),
    ("(lambda ([x x Int]) 1)", 1, 13),
    ("(let x 1)", 1, 6),
    ("(let ([x]) 1)", 1, 7),
    ("(let ([x 1 2]) 1)", 1, 7),
    ("(let ([x 1 Int 2]) 1)", 1, 10),
    ("(let (x) 1)", 1, 7),
    ("(let ([1 1]) 1)", 1, 8),
    ("(letrec x 1)", 1, 9),
    ("(letrec ([f 1]) 1)", 1, 13),
    ("(letrec ([f (g)]) 1)", 1, 13),
];

#[test]
fn elements_of_the_wrong_shape(rt: HostRuntime) {
    are_refused(&rt, rt.alloc(), RefusalKind::BadForm, NAMES_AND_BINDINGS);
}

// Elements of loops, of tuples, of definitions and of types.
const LATER_ELEMENTS: &[(&str, u32, u32)] = &[
    ("(repeat x 1)", 1, 9),
    ("(repeat (i 0) 1)", 1, 9),
    ("(repeat (i 0 1) c 1)", 1, 17),
    ("(repeat (1 0 1) 1)", 1, 10),
    ("(tuple-proj 1 -1)", 1, 15),
    ("(tuple-proj 1 x)", 1, 15),
    ("(define () 1)", 1, 9),
    ("(define 1 2)", 1, 9),
    ("(define x 1 Int 2)", 1, 11),
    ("(: 1 x)", 1, 6),
    ("(: 1 (Ref))", 1, 6),
    ("(: 1 (-> Int Int))", 1, 6),
    ("(: 1 (Int -> Int Int))", 1, 6),
    ("(: 1 (Rec s Int))", 1, 6),
    ("(: 1 (Tuple -> Int))", 1, 13),
];

#[test]
fn later_elements_of_the_wrong_shape(rt: HostRuntime) {
    are_refused(&rt, rt.alloc(), RefusalKind::BadForm, LATER_ELEMENTS);
}

const OUT_OF_PLACE: &[(&str, u32, u32)] = &[
    ("lambda", 1, 1),
    ("(+ if 1)", 1, 4),
    ("(-> 1)", 1, 2),
    ("(begin (define x 1) x)", 1, 8),
    ("(let ([f (lambda)]) 1)", 1, 10),
    ("(define x (define y 1))", 1, 11),
    (":", 1, 1),
    ("read-int", 1, 1),
];

#[test]
fn words_and_definitions_out_of_place(rt: HostRuntime) {
    are_refused(&rt, rt.alloc(), RefusalKind::BadForm, OUT_OF_PLACE);
}

const BOUND_TWICE: &[(&str, u32, u32)] = &[
    ("(lambda (x x) 1)", 1, 12),
    ("(lambda (x [x : Int]) 1)", 1, 13),
    ("(let ([x 1] [x 2]) 1)", 1, 14),
    ("(letrec ([f (lambda () 1)] [f (lambda () 1)]) 1)", 1, 29),
    ("(define (f) 1)\n(define (f) 2)", 2, 10),
    ("(define (f) 1) (define f (lambda))", 1, 24),
    ("(repeat (i 0 1) (i 0) 1)", 1, 18),
    ("(define (f x x) 1)", 1, 14),
];

#[test]
fn names_bound_twice(rt: HostRuntime) {
    are_refused(&rt, rt.alloc(), RefusalKind::RepeatedName, BOUND_TWICE);
}

const ONE_TOO_MANY: &[(&str, u32, u32)] = &[
    ("(lambda (a b c d e f g) 1)", 1, 22),
    ("(f 1 2 3 4 5 6 if)", 1, 16),
    ("(tuple 1 2 3 4 5 6 7 8 9)", 1, 24),
    ("(and 1 2 3 4 5 6 7 8 9)", 1, 22),
    ("(or 1 2 3 4 5 6 7 8 if)", 1, 21),
    ("(: 1 (Tuple Int Int Int Int Int Int Int Int Int))", 1, 45),
    ("(: 1 (Int Int Int Int Int Int Int -> Int))", 1, 31),
    ("(define (f a b c d e f g) 1)", 1, 24),
];

#[test]
fn one_too_many(rt: HostRuntime) {
    are_refused(&rt, rt.alloc(), RefusalKind::TooWide, ONE_TOO_MANY);
}

const RESERVED: &[(&str, u32, u32)] = &[
    ("(let ([if 1]) 2)", 1, 8),
    ("(lambda (lambda) 1)", 1, 10),
    ("(lambda ([+ : Int]) 1)", 1, 11),
    ("(letrec ([-> 1]) 1)", 1, 11),
    ("(repeat (read-int 0 1) 1)", 1, 10),
    ("(repeat (i 0 1) (: 1) 2)", 1, 18),
    ("(define define 1)", 1, 9),
    ("(define (not) 1)", 1, 10),
];

#[test]
fn reserved_words_as_names(rt: HostRuntime) {
    are_refused(&rt, rt.alloc(), RefusalKind::ReservedName, RESERVED);
}

// Texts of two faults, with the kind of the first.
const TWO_FAULTS: &[(&str, RefusalKind, u32, u32)] = &[
    ("(if (+ 1) (lambda (x x) 1) 2)", RefusalKind::BadForm, 1, 5),
    ("(lambda (x x) (if))", RefusalKind::RepeatedName, 1, 12),
    (
        "(let ([x (f 1 2 3 4 5 6 7)] [x 1]) 1)",
        RefusalKind::TooWide,
        1,
        25,
    ),
    ("(let ([if (if)]) 1)", RefusalKind::ReservedName, 1, 8),
    ("(lambda (x x))", RefusalKind::BadForm, 1, 1),
    ("(: (if) x)", RefusalKind::BadForm, 1, 4),
    ("(let ([x : y (if)]) 1)", RefusalKind::BadForm, 1, 12),
    (
        "(define (f) 1) 2 (define (f) (if))",
        RefusalKind::BadForm,
        1,
        30,
    ),
    ("(+ (if) 1 2)", RefusalKind::BadForm, 1, 1),
    ("(let ([x : if 1] [x 1]) 1)", RefusalKind::BadForm, 1, 12),
    ("(repeat (i (if) 1) (i 1) 2)", RefusalKind::BadForm, 1, 12),
];

// Each text has a refusal of its kind, at its line and column.
fn have_kinds(rt: &impl Abort, alloc: Global, rows: &[(&str, RefusalKind, u32, u32)]) {
    for (text, kind, line, col) in rows {
        assert!(rt;
            is_refused(rt, alloc, text.as_bytes(), *kind, *line, *col),
            "{text}"
        );
    }
}

#[test]
fn the_earlier_fault_decides(rt: HostRuntime) {
    have_kinds(&rt, rt.alloc(), TWO_FAULTS);
}

// Five hundred forms, and these bytes behind them.
fn five_hundred(rt: &impl Abort, alloc: Global, behind: &[u8]) -> Vec<u8> {
    let mut text = Vec::new(alloc);
    for _ in 0..500 {
        text.extend_from_slice(b"1\n").expect(rt, "memory");
    }
    text.extend_from_slice(behind).expect(rt, "memory");
    text
}

// The refusal of that.
fn refusal_behind(rt: &impl Abort, alloc: Global, behind: &[u8]) -> Option<Refusal> {
    refusal(rt, alloc, five_hundred(rt, alloc, behind).as_slice())
}

#[test]
fn five_hundred_forms_are_read(rt: HostRuntime) {
    let pos = Pos { line: 501, col: 1 };
    let kind = RefusalKind::TooManyForms;
    assert!(rt; refusal_behind(&rt, rt.alloc(), b"") == None);
    assert!(rt; refusal_behind(&rt, rt.alloc(), b"(if)") == Some(Refusal { kind, pos }));
}

// A sequence of 131,068 terms.
fn long_body(rt: &impl Abort, alloc: Global) -> Vec<u8> {
    let mut text = Vec::new(alloc);
    text.extend_from_slice(b"(begin").expect(rt, "memory");
    for _ in 0..131068 {
        text.extend_from_slice(b" 1").expect(rt, "memory");
    }
    text.push(b')').expect(rt, "memory");
    text
}

#[test]
fn long_bodies_are_read_and_dropped(rt: HostRuntime) {
    let text = long_body(&rt, rt.alloc());
    assert!(rt; refusal(&rt, rt.alloc(), text.as_slice()) == None);
}

// What begins a form, 199 times, a form inside, and the brackets behind it.
fn nested(rt: &impl Abort, alloc: Global, head: &[u8]) -> Vec<u8> {
    let mut text = Vec::new(alloc);
    for _ in 0..199 {
        text.extend_from_slice(head).expect(rt, "memory");
    }
    text.extend_from_slice(b"(and)").expect(rt, "memory");
    for _ in 0..199 {
        text.push(b')').expect(rt, "memory");
    }
    text
}

// Whether these forms are read.
fn nested_is_read(rt: &impl Abort, alloc: Global, head: &[u8]) -> bool {
    let text = nested(rt, alloc, head);
    refusal(rt, alloc, text.as_slice()) == None
}

#[test]
fn two_hundred_brackets_are_expanded(rt: HostRuntime) {
    assert!(rt; nested_is_read(&rt, rt.alloc(), b"(repeat (i 0 1) "));
    assert!(rt; nested_is_read(&rt, rt.alloc(), b"(or 1 2 3 4 5 6 7 "));
}
