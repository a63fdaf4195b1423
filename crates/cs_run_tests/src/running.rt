// Runs of the program over a store and a sink in memory.
use cs_io::{MemSink, MemStore};
use cs_run::run;
use std::alloc::AllocGlobal;
use std::process::Abort;

/// A store of these files.
pub(crate) fn store_of<R: AllocGlobal + Abort>(rt: &R, files: &[(&str, &str)]) -> MemStore {
    let mut store = MemStore::new(rt.alloc());
    for (name, text) in files {
        assert!(rt; store.add(name, text.as_bytes()).is_ok());
    }
    store
}

/// The words of a line.
pub(crate) fn words_of<R: AllocGlobal + Abort>(rt: &R, text: &str) -> Vec<String> {
    let mut words = Vec::new(rt.alloc());
    for word in text.split_whitespace() {
        let word = String::from_str(rt.alloc(), word).expect(rt, "a word");
        assert!(rt; words.push(word).is_ok());
    }
    words
}

/// The status of the run of words, which stand apart by blanks.
pub(crate) fn status_of<R: AllocGlobal + Abort>(
    rt: &R,
    words: &str,
    store: &mut MemStore,
    out: &mut MemSink,
) -> u8 {
    let words = words_of(rt, words);
    run(rt, &words, store, out)
}

/// Runs words, and asserts how the run ends and what it puts.
pub(crate) fn assert_run<R: AllocGlobal + Abort>(
    rt: &R,
    store: &mut MemStore,
    words: &str,
    status: u8,
    text: &str,
) {
    let mut out = MemSink::new(rt.alloc());
    let answered = status_of(rt, words, store, &mut out);
    assert_eq!(rt; answered, status, "the status of {words}");
    assert!(rt; out.bytes() == text.as_bytes(), "what {words} puts");
}
