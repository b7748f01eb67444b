// Words on a command line.

use std::alloc::Global;
use std::process::Abort;

// The words of a line, which a space stands between; none where the line is empty.
pub(crate) fn words_of(rt: &impl Abort, alloc: Global, line: &str) -> Vec<String> {
    let mut words = Vec::new(alloc);
    if line.is_empty() {
        return words;
    }
    for text in line.split(' ') {
        let word = String::from_str(alloc, text).expect(rt, "memory");
        words.push(word).expect(rt, "memory");
    }
    words
}
