// Calls that show a source, and calls that make one from a number: a row for each.

use crate::tests::calling::{Content, Row, call};
use crate::tests::calls::{RUN, UNREAD};
use Content::Text;
use assembler::image::read_image;
use listing::code::{CodeWords, code_words};
use listing::reading::read_code_text;
use std::alloc::Global;
use std::process::Abort;

const CASTS: Row = Row {
    words: "casts a",
    file: Text("(: (: #t Dyn) Int)"),
    img: false,
    ..RUN
};

const CODE: Row = Row {
    words: "code a",
    ..CASTS
};

const IMAGE: Row = Row {
    words: "image a",
    ..CASTS
};

const GEN: Row = Row {
    words: "gen 2",
    asked: 0,
    img: false,
    ..RUN
};

pub(crate) const LISTINGS: &[Row] = &[
    Row {
        out: Text(
            "1:4 Bool => Dyn (inject Bool)\n1:1 Dyn => Int (project Int 1:1) merged (fail 1:1)\n",
        ),
        ..CASTS
    },
    // no casts are no lines, so that nothing is put
    Row {
        file: Text("42"),
        out_fails: &[0],
        ..CASTS
    },
    Row {
        file: Text("("),
        status: 1,
        err: "refused unclosed 1:1\n",
        ..CASTS
    },
    Row {
        file: Text("(+ 1 #t)"),
        status: 1,
        err: "refused not-consistent 1:6\n",
        ..CODE
    },
    Row {
        file: Text("(f)"),
        status: 1,
        err: "refused unbound 1:2\n",
        ..IMAGE
    },
    Row {
        out_fails: &[0],
        status: 9,
        err: "put failed\n",
        ..CASTS
    },
    Row {
        out_fails: &[0],
        status: 9,
        err: "put failed\n",
        ..CODE
    },
    Row {
        out_fails: &[0],
        status: 9,
        err: "put failed\n",
        ..IMAGE
    },
    Row {
        shelf_fails: &[0],
        status: 8,
        err: "load failed\n",
        ..CASTS
    },
    Row {
        shelf_fails: &[0],
        status: 8,
        err: "load failed\n",
        ..CODE
    },
    Row {
        shelf_fails: &[0],
        status: 8,
        err: "load failed\n",
        ..IMAGE
    },
    Row {
        words: "casts",
        ..UNREAD
    },
    Row {
        words: "casts a b",
        ..UNREAD
    },
    Row {
        words: "casts ",
        ..UNREAD
    },
    Row {
        words: "code a --steps 5",
        ..UNREAD
    },
    Row {
        words: "image a b",
        ..UNREAD
    },
    Row {
        words: "image",
        ..UNREAD
    },
    Row {
        words: "listing a",
        ..UNREAD
    },
];

// The numbers of bytes follow from the family's lines, those of forms and casts from its forms, the answer is a sum.
pub(crate) const NUMBERS: &[Row] = &[
    Row {
        words: "gen 1",
        out: Text("source 133\nforms 5\ncasts 4\noutput 1\n"),
        err: "answer 0\n",
        ..GEN
    },
    Row {
        words: "gen 2",
        out: Text("source 217\nforms 7\ncasts 6\noutput 2\n"),
        err: "answer 20\n",
        ..GEN
    },
    Row {
        words: "gen 0000000000000000003",
        out: Text("source 287\nforms 9\ncasts 8\noutput 2\n"),
        err: "answer 60\n",
        ..GEN
    },
    Row {
        words: "gen 10",
        out: Text("source 833\nforms 23\ncasts 22\noutput 3\n"),
        err: "answer 900\n",
        ..GEN
    },
    Row {
        words: "gen 11",
        out: Text("source 906\nforms 25\ncasts 24\noutput 4\n"),
        err: "answer 1100\n",
        ..GEN
    },
    Row {
        words: "gen 100",
        out: Text("source 8033\nforms 203\ncasts 202\noutput 5\n"),
        err: "answer 99000\n",
        ..GEN
    },
    Row {
        words: "gen 101",
        out: Text("source 8109\nforms 205\ncasts 204\noutput 6\n"),
        err: "answer 101000\n",
        ..GEN
    },
    Row {
        words: "gen 200",
        out: Text("source 16333\nforms 403\ncasts 402\noutput 6\n"),
        err: "answer 398000\n",
        ..GEN
    },
    // no file is asked for, so that none can fail
    Row {
        words: "gen 2",
        shelf_fails: &[0],
        out: Text("source 217\nforms 7\ncasts 6\noutput 2\n"),
        err: "answer 20\n",
        ..GEN
    },
    Row {
        words: "gen 2",
        out_fails: &[0],
        status: 9,
        err: "put failed\n",
        ..GEN
    },
    Row {
        words: "gen 201",
        ..UNREAD
    },
    Row {
        words: "gen 0",
        ..UNREAD
    },
    Row {
        words: "gen x",
        ..UNREAD
    },
    Row {
        words: "gen -1",
        ..UNREAD
    },
    Row {
        words: "gen 00000000000000000003",
        ..UNREAD
    },
    Row {
        words: "gen 2 2",
        ..UNREAD
    },
    Row {
        words: "gen",
        ..UNREAD
    },
];

// The words of an image's code.
fn words_of_code(rt: &impl Abort, alloc: Global, image: &[u8]) -> CodeWords {
    let image = read_image(alloc, image).expect(rt, "no image");
    code_words(alloc, &image).expect(rt, "memory")
}

// Whether a listing of code reads back to the words of this image's code, of which there are some.
fn reads_back(rt: &impl Abort, alloc: Global, listing: &[u8], image: &[u8]) -> bool {
    let words = words_of_code(rt, alloc, image);
    let listed = read_code_text(alloc, listing).expect(rt, "memory");
    match listed {
        Some(listed) => listed.as_slice() == words.as_slice() && !words.as_slice().is_empty(),
        None => false,
    }
}

// What a call puts on `out`.
fn output_of(rt: &impl Abort, alloc: Global, row: &Row, file: &[u8]) -> Vec<u8> {
    let left = call(rt, alloc, row, file);
    Vec::from_slice(alloc, left.out.bytes()).expect(rt, "memory")
}

// What a run puts as the image of a file.
fn image_of_run(rt: &impl Abort, alloc: Global, file: &[u8]) -> Vec<u8> {
    let left = call(rt, alloc, &RUN, file);
    Vec::from_slice(alloc, left.img.bytes()).expect(rt, "memory")
}

// The code of a file is that of its image, which a run puts too.
#[test]
fn code_image_and_run_have_one_image(rt: HostRuntime) {
    let file = b"(begin (print-int (+ 40 2)) (newline) 7)";
    let image = output_of(&rt, rt.alloc(), &IMAGE, file);
    assert!(rt; image == image_of_run(&rt, rt.alloc(), file));
    let code = output_of(&rt, rt.alloc(), &CODE, file);
    assert!(rt; reads_back(&rt, rt.alloc(), code.as_slice(), image.as_slice()));
}
