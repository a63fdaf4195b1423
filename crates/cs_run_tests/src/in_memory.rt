// Commands that are run inside a program, over files in memory.
use crate::documents::REGISTER;
use crate::running::{store_of, words_of};
use cs_io::MemSink;
use cs_run::run_in_memory;
use cs_words::read_words;

// Where nothing is planned to fail, status 3 means a missing file, and 4 comes only for want of memory.
#[test]
fn commands_over_files_in_memory(rt: HostRuntime) {
    let mut store = store_of(&rt, &[("net", REGISTER), ("rows", "0\n1\n")]);
    for (words, status, text) in [
        ("slow net out cert delays -c 2", 0, ""),
        ("sim out rows", 0, "1\n1\n"),
        ("sim net none", 3, "cannot read none\n"),
        ("mix mixed rows rows", 0, ""),
        ("part 1 2 mixed", 0, "0\n1\n"),
    ] {
        let words_said = words_of(&rt, words);
        let command = read_words(rt.alloc(), &words_said).expect(&rt, "words of a command");
        let mut out = MemSink::new(rt.alloc());
        let answered = run_in_memory(rt.alloc(), &command, &mut store, &mut out);
        assert_eq!(rt; answered.code(), status, "{words}");
        assert!(rt; out.bytes() == text.as_bytes(), "what {words} puts");
    }
    assert_eq!(rt; store.dry(), 0);
}
