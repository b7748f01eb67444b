// What programs print and answer: a table for each subject.

use crate::tests::calling::{Content, Row};
use crate::tests::calls::{BLAMED, REFUSED, RUN, TRAPPED, TWICE_CAST};
use Content::Text;

// Literals, and what is no program.
pub(crate) const LITERALS: &[Row] = &[
    Row {
        file: Text("42"),
        err: "answer 42\n",
        ..RUN
    },
    Row {
        file: Text(""),
        err: "refused empty 1:1\n",
        ..REFUSED
    },
    Row {
        file: Text("; note"),
        err: "refused empty 1:1\n",
        ..REFUSED
    },
    Row {
        file: Text("(+ 9223372036854775807 1)"),
        err: "answer -9223372036854775808\n",
        ..RUN
    },
    Row {
        file: Text("9223372036854775808"),
        err: "refused number-range 1:1\n",
        ..REFUSED
    },
    Row {
        file: Text("; least\n-9223372036854775808 ; number"),
        err: "answer -9223372036854775808\n",
        ..RUN
    },
    Row {
        file: Text(" \t+7;seven\n;"),
        err: "answer 7\n",
        ..RUN
    },
    Row {
        file: Text("1 2"),
        err: "answer 2\n",
        ..RUN
    },
    Row {
        file: Text("#t"),
        err: "answer #t\n",
        ..RUN
    },
    Row {
        file: Text("(: () Dyn)"),
        err: "answer ()\n",
        ..RUN
    },
];

// Of what is blamed, the place is that of the outermost cast.
pub(crate) const CASTS: &[Row] = &[
    Row {
        file: Text("(: (: #t Dyn) Int)"),
        err: "blame 1:1\n",
        ..BLAMED
    },
    Row {
        file: Text("(: (: #t Dyn) Bool)"),
        err: "answer #t\n",
        ..RUN
    },
    Row {
        file: Text("(: 5 Dyn)"),
        err: "answer 5\n",
        ..RUN
    },
    Row {
        file: Text("(: #f Dyn)"),
        err: "answer #f\n",
        ..RUN
    },
    Row {
        file: Text("(if (: #f Dyn) 1 (: 2 Dyn))"),
        err: "answer 2\n",
        ..RUN
    },
    Row {
        file: Text("(if (: 0 Dyn) 1 2)"),
        err: "blame 1:5\n",
        ..BLAMED
    },
    Row {
        file: Text("((lambda (x) (+ x 1)) #t)"),
        err: "blame 1:17\n",
        ..BLAMED
    },
    Row {
        file: Text("((lambda (x) (+ x 1)) 41)"),
        err: "answer 42\n",
        ..RUN
    },
];

// Functions and tuples in wrappers.
pub(crate) const WRAPPED: &[Row] = &[
    Row {
        file: Text("(let ([f (: (: (lambda ([x : Int]) : Int x) Dyn) (Bool -> Int))]) 5)"),
        err: "answer 5\n",
        ..RUN
    },
    Row {
        file: Text("(let ([f (: (: (lambda ([x : Int]) : Int x) Dyn) (Bool -> Int))]) (f #t))"),
        err: "blame 1:10\n",
        ..BLAMED
    },
    Row {
        file: Text("((: (lambda () 1) Dyn) 5)"),
        err: "blame 1:2\n",
        ..BLAMED
    },
    Row {
        file: Text(TWICE_CAST),
        err: "blame 2:10\n",
        ..BLAMED
    },
    Row {
        file: Text("(tuple-proj (: (: (tuple 1 #t) Dyn) (Tuple Int Int)) 0)"),
        err: "answer 1\n",
        ..RUN
    },
    Row {
        file: Text("(tuple-proj (: (: (tuple 1 #t) Dyn) (Tuple Int Int)) 1)"),
        err: "blame 1:13\n",
        ..BLAMED
    },
    Row {
        file: Text(
            "(letrec ([loop (lambda ([n : Int] [f : (Dyn -> Dyn)]) : (Dyn -> Dyn)\n(if (= n 0) f (loop (- n 1) (: (: f (Int -> Int)) (Dyn -> Dyn)))))])\n((loop 1000 (lambda (x) x)) 7))",
        ),
        err: "answer 7\n",
        ..RUN
    },
    Row {
        file: Text(
            "(letrec ([loop (lambda ([n : Int] [f : (Dyn -> Dyn)]) : (Dyn -> Dyn)\n(if (= n 0) f (loop (- n 1) (: (: f (Int -> Int)) (Dyn -> Dyn)))))])\n((loop 1000 (lambda (x) x)) #t))",
        ),
        err: "blame 2:29\n",
        ..BLAMED
    },
    Row {
        file: Text("(tuple-proj (: (tuple 1 #f) Dyn) 1)"),
        err: "answer #f\n",
        ..RUN
    },
    Row {
        file: Text("(tuple-proj (: (tuple 1 #f) Dyn) 2)"),
        err: "blame 1:13\n",
        ..BLAMED
    },
    Row {
        file: Text("(: (: (lambda (x) x) Dyn) (Int -> Bool))"),
        err: "answer #<function>\n",
        ..RUN
    },
];

// Boxes and vectors, bare and in wrappers; an index is tested before what is written is cast.
pub(crate) const CELLS: &[Row] = &[
    Row {
        file: Text(
            "(let ([b (box 1)]) (let ([d (: b (Ref Dyn))]) (begin (box-set! d #t) (unbox b))))",
        ),
        err: "blame 1:29\n",
        ..BLAMED
    },
    Row {
        file: Text(
            "(let ([b (box 1)]) (let ([d (: b (Ref Dyn))]) (begin (box-set! d 7) (unbox b))))",
        ),
        err: "answer 7\n",
        ..RUN
    },
    Row {
        file: Text("(vector-ref (make-vector 3 0) 3)"),
        err: "trap index\n",
        ..TRAPPED
    },
    Row {
        file: Text("(vector-ref (make-vector 3 0) -1)"),
        err: "trap index\n",
        ..TRAPPED
    },
    Row {
        file: Text("(make-vector -1 0)"),
        err: "trap length\n",
        ..TRAPPED
    },
    Row {
        words: "run a --region 64",
        file: Text("(make-vector 100 0)"),
        status: 5,
        err: "exhausted region\n",
        ..RUN
    },
    Row {
        file: Text("(make-vector 100 0)"),
        err: "answer #<vector>\n",
        ..RUN
    },
    Row {
        file: Text(
            "(let ([v (: (make-vector 3 1) (Vect Dyn))]) (begin (vector-set! v 0 #t) (vector-ref v 0)))",
        ),
        err: "blame 1:10\n",
        ..BLAMED
    },
    Row {
        file: Text("(make-vector 9223372036854775807 0)"),
        status: 5,
        err: "exhausted region\n",
        ..RUN
    },
    Row {
        file: Text("(vector-set! (: (make-vector 1 0) (Vect Dyn)) 1 #t)"),
        err: "trap index\n",
        ..TRAPPED
    },
    Row {
        file: Text("(vector-length (: (make-vector 4 #t) (Vect Dyn)))"),
        err: "answer 4\n",
        ..RUN
    },
    Row {
        file: Text("(+ 1 (unbox (box 2)))"),
        err: "answer 3\n",
        ..RUN
    },
    Row {
        file: Text("(unbox (: (make-vector 1 2) Dyn))"),
        err: "blame 1:8\n",
        ..BLAMED
    },
];

// Products, quotients and remainders.
pub(crate) const QUOTIENTS: &[Row] = &[
    Row {
        file: Text("(%/ 1 0)"),
        err: "trap zero-divisor\n",
        ..TRAPPED
    },
    Row {
        file: Text("(%/ -9223372036854775808 -1)"),
        err: "answer -9223372036854775808\n",
        ..RUN
    },
    Row {
        file: Text("(%% -7 2)"),
        err: "answer -1\n",
        ..RUN
    },
    Row {
        file: Text("(* 6 7)"),
        err: "answer 42\n",
        ..RUN
    },
];

// What is printed, from left to right, up to the end.
pub(crate) const PRINTED: &[Row] = &[
    Row {
        file: Text("(begin (print-int (+ 40 2)) (newline) 7)"),
        out: Text("42\n"),
        err: "answer 7\n",
        ..RUN
    },
    Row {
        file: Text("(newline)"),
        out: Text("\n"),
        err: "answer ()\n",
        ..RUN
    },
    Row {
        file: Text("(print-int -9223372036854775808)"),
        out: Text("-9223372036854775808"),
        err: "answer ()\n",
        ..RUN
    },
    Row {
        file: Text("(+ (begin (print-int 1) 2) (begin (print-int 3) 4))"),
        out: Text("13"),
        err: "answer 6\n",
        ..RUN
    },
    Row {
        file: Text("((begin (print-int 1) (lambda ([x : Int]) x)) (begin (print-int 2) 5))"),
        out: Text("12"),
        err: "answer 5\n",
        ..RUN
    },
    Row {
        file: Text(
            "((lambda ([x : Int] [y : Int]) x) (begin (print-int 2) (: #t Dyn)) (begin (print-int 3) 1))",
        ),
        out: Text("2"),
        err: "blame 1:35\n",
        ..BLAMED
    },
    Row {
        file: Text("(begin (print-int 7) (+ 1 (: (: #t Dyn) Int)))"),
        out: Text("7"),
        err: "blame 1:27\n",
        ..BLAMED
    },
];

// Loops, groups, closures and tuples.
pub(crate) const LOOPS: &[Row] = &[
    Row {
        file: Text("(define (fib n) (if (< n 2) n (+ (fib (- n 1)) (fib (- n 2))))) (fib 15)"),
        err: "answer 610\n",
        ..RUN
    },
    Row {
        file: Text("(repeat (i 0 5) (s : Int 0) (+ s i))"),
        err: "answer 10\n",
        ..RUN
    },
    Row {
        file: Text("(define x 3)"),
        err: "answer ()\n",
        ..RUN
    },
    Row {
        file: Text("[+ 1 (+ 2 3)]"),
        err: "answer 6\n",
        ..RUN
    },
    Row {
        file: Text("(begin 1 2 3)"),
        err: "answer 3\n",
        ..RUN
    },
    Row {
        file: Text("(+ -2048 (+ 2047 (+ 2048 -2049)))"),
        err: "answer -2\n",
        ..RUN
    },
    Row {
        file: Text(
            "(define (add [x : Int]) : (Int -> Int) (lambda ([y : Int]) (+ x y))) ((add 3) 4)",
        ),
        err: "answer 7\n",
        ..RUN
    },
    Row {
        file: Text(
            "((((lambda ([x : Int]) (lambda ([y : Int]) (lambda ([z : Int]) (- x (- y z))))) 7) 5) 3)",
        ),
        err: "answer 5\n",
        ..RUN
    },
    Row {
        file: Text("(let ([x 1]) (let ([f (lambda () x)]) (let ([x 2]) (+ (* 10 (f)) x))))"),
        err: "answer 12\n",
        ..RUN
    },
    Row {
        file: Text(
            "(define (even [n : Int]) : Bool (if (= n 0) #t (odd (- n 1))))\n(define (odd [n : Int]) : Bool (if (= n 0) #f (even (- n 1))))\n(even 100001)",
        ),
        err: "answer #f\n",
        ..RUN
    },
    Row {
        file: Text("(let ([t (tuple 1 (tuple #t 5))]) (tuple-proj (tuple-proj t 1) 1))"),
        err: "answer 5\n",
        ..RUN
    },
    Row {
        file: Text("(lambda (x) x)"),
        err: "answer #<function>\n",
        ..RUN
    },
    Row {
        file: Text("(tuple 1 2)"),
        err: "answer #<tuple>\n",
        ..RUN
    },
    Row {
        file: Text("(box 1)"),
        err: "answer #<box>\n",
        ..RUN
    },
    Row {
        file: Text("(and (< 1 2) (not (> 1 2)) (or #f (>= 2 2)))"),
        err: "answer #t\n",
        ..RUN
    },
    Row {
        file: Text(
            "(letrec ([f (lambda ([a : Int] [b : Int] [c : Int] [d : Int] [e : Int] [g : Int]) : Int\n(if (= a 0) (- b (- c (- d (- e g)))) (f (- a 1) c d e g b)))]) (f 5 1 2 3 4 5))",
        ),
        err: "answer 3\n",
        ..RUN
    },
];

// Calls through proxies of one to six arguments, and two arguments that are wrong, of which the first is blamed.
pub(crate) const PROXIED: &[Row] = &[
    Row {
        file: Text("((: (lambda ([a : Int]) : Int a)\n(Dyn -> Dyn)) 1)"),
        err: "answer 1\n",
        ..RUN
    },
    Row {
        file: Text(
            "((: (lambda ([a : Int] [b : Int]) : Int (+ a (* 10 b)))\n(Dyn Int -> Dyn)) 1 2)",
        ),
        err: "answer 21\n",
        ..RUN
    },
    Row {
        file: Text(
            "((: (lambda ([a : Int] [b : Int] [c : Int]) : Int (+ a (* 10 (+ b (* 10 c)))))\n(Dyn Int Dyn -> Dyn)) 1 2 3)",
        ),
        err: "answer 321\n",
        ..RUN
    },
    Row {
        file: Text(
            "((: (lambda ([a : Int] [b : Int] [c : Int] [d : Int]) : Int (+ a (* 10 (+ b (* 10 (+ c (* 10 d)))))))\n(Dyn Int Dyn Int -> Dyn)) 1 2 3 4)",
        ),
        err: "answer 4321\n",
        ..RUN
    },
    Row {
        file: Text(
            "((: (lambda ([a : Int] [b : Int] [c : Int] [d : Int] [e : Int]) : Int (+ a (* 10 (+ b (* 10 (+ c (* 10 (+ d (* 10 e)))))))))\n(Dyn Int Dyn Int Dyn -> Dyn)) 1 2 3 4 5)",
        ),
        err: "answer 54321\n",
        ..RUN
    },
    Row {
        file: Text(
            "((: (lambda ([a : Int] [b : Int] [c : Int] [d : Int] [e : Int] [g : Int]) : Int (+ a (* 10 (+ b (* 10 (+ c (* 10 (+ d (* 10 (+ e (* 10 g)))))))))))\n(Dyn Int Dyn Int Dyn Int -> Dyn)) 1 2 3 4 5 6)",
        ),
        err: "answer 654321\n",
        ..RUN
    },
    Row {
        file: Text(
            "(let ([f (lambda ([a : Int] [b : Int] [c : Int] [d : Int] [e : Int] [g : Int]) : Int a)])\n(let ([g (: f (Int Int Int Int Int Dyn -> Int))])\n(let ([h (: g (Int Int Int Int Dyn Dyn -> Int))])\n(h 1 2 3 4 5 6))))",
        ),
        err: "answer 1\n",
        ..RUN
    },
    Row {
        file: Text(
            "(let ([f (lambda ([a : Int] [b : Int] [c : Int] [d : Int] [e : Int] [g : Int]) : Int a)])\n(let ([g (: f (Int Int Int Int Int Dyn -> Int))])\n(let ([h (: g (Int Int Int Int Dyn Dyn -> Int))])\n(h 1 2 3 4 5 #f))))",
        ),
        err: "blame 2:10\n",
        ..BLAMED
    },
    Row {
        file: Text(
            "(let ([f (lambda ([a : Int] [b : Int] [c : Int] [d : Int] [e : Int] [g : Int]) : Int a)])\n(let ([g (: f (Int Int Int Int Int Dyn -> Int))])\n(let ([h (: g (Int Int Int Int Dyn Dyn -> Int))])\n(h 1 2 3 4 #t 6))))",
        ),
        err: "blame 3:10\n",
        ..BLAMED
    },
    Row {
        file: Text(
            "(let ([f (lambda ([a : Int] [b : Int] [c : Int] [d : Int] [e : Int] [g : Int]) : Int a)])\n(let ([g (: f (Int Int Int Int Int Dyn -> Int))])\n(let ([h (: g (Int Int Int Int Dyn Dyn -> Int))])\n(h 1 2 3 4 #t #f))))",
        ),
        err: "blame 3:10\n",
        ..BLAMED
    },
];
