// Which papers bytes say, and how papers are printed.
use cs_cert::{CertError, Paper, print_certificate, read_certificate};
use std::alloc::{AllocError, Global};
use std::process::Abort;

/// Why bytes give no paper.
pub fn refusal(alloc: Global, error: &CertError) -> Result<String, AllocError> {
    match error {
        CertError::NotJson => String::from_str(alloc, "not json"),
        CertError::BadShape { at } => format!(in alloc; "bad shape at {}", at.path.as_str()),
        CertError::NoMemory => String::from_str(alloc, "no memory"),
    }
}

fn printed(alloc: Global, paper: &Paper) -> Result<String, AllocError> {
    let bytes = print_certificate(alloc, paper)?;
    match String::from_utf8(bytes) {
        Ok(text) => Ok(text),
        Err(_) => String::from_str(alloc, "no text"),
    }
}

/// The paper that a text says as it is printed, or why it says none.
pub fn line_of(alloc: Global, text: &str) -> Result<String, AllocError> {
    match read_certificate(alloc, text.as_bytes()) {
        Ok(paper) => printed(alloc, &paper),
        Err(error) => refusal(alloc, &error),
    }
}

/// Each text says the paper that is printed as the other.
fn assert_printed(rt: &impl Abort, alloc: Global, rows: &[(&str, &str)]) {
    for (text, wanted) in rows {
        let found = line_of(alloc, text).expect(rt, "a line");
        let mut line = String::from_str(alloc, wanted).expect(rt, "a line");
        line.push_str("\n").expect(rt, "a line");
        assert!(rt; found.as_str() == line.as_str(), "{text}: {found}");
    }
}

const PAPERS: [(&str, &str); 7] = [
    // A certificate and a refusal of version 1, and a fallback paper.
    (
        r#"{"contents":["",""],"contexts":3,"cycle":[{"edges":[],"from":3,"kind":"path"}],"kind":"certificate","lags":[0,0,0,0],"mode":"any","period":2,"version":1}"#,
        r#"{"contents":["",""],"contexts":3,"cycle":[{"edges":[],"from":3,"kind":"path"}],"kind":"certificate","lags":[0,0,0,0],"mode":"any","period":2,"table":1,"version":2}"#,
    ),
    (
        r#"{"chains":[{"edges":[2,4],"from":1,"kind":"path"}],"context":0,"contexts":1,"cycle":[{"edges":[],"from":5,"kind":"path"}],"derivation":[[]],"kind":"refusal","lags":[0,0,0,0,0,0,1],"mode":"any","period":5,"version":1}"#,
        r#"{"chains":[{"edges":[2,4],"from":1,"kind":"path"}],"context":0,"contexts":1,"cycle":[{"edges":[],"from":5,"kind":"path"}],"derivation":[[]],"kind":"refusal","lags":[0,0,0,0,0,0,1],"mode":"any","period":5,"table":1,"version":2}"#,
    ),
    (
        r#"{"below":[0,0,0,0,0,0,1],"chains":[{"edges":[2,4],"from":1,"kind":"path"}],"contents":["0","1","","",""],"context":0,"contexts":1,"derivation":[[]],"kind":"fallback","lags":[0,0,0,0,0,0,0],"mode":"any","period":10,"table":1,"version":2}"#,
        r#"{"below":[0,0,0,0,0,0,1],"chains":[{"edges":[2,4],"from":1,"kind":"path"}],"contents":["0","1","","",""],"context":0,"contexts":1,"derivation":[[]],"kind":"fallback","lags":[0,0,0,0,0,0,0],"mode":"any","period":10,"table":1,"version":2}"#,
    ),
    // The ends of the ranges; members in another order, with others among them, and a repeated one.
    (
        r#"{"contents":["01","1"],"contexts":16,"cycle":[{"edge":4294967295,"kind":"edge"},{"from":4294967295,"kind":"pin","to":0}],"kind":"certificate","lags":[-2147483648,2147483648],"mode":"forward","period":18446744073709551615,"table":2,"version":2}"#,
        r#"{"contents":["01","1"],"contexts":16,"cycle":[{"edge":4294967295,"kind":"edge"},{"from":4294967295,"kind":"pin","to":0}],"kind":"certificate","lags":[-2147483648,2147483648],"mode":"forward","period":18446744073709551615,"table":2,"version":2}"#,
    ),
    (
        r#"{"version":2,"table":2,"period":18446744073709551615,"mode":"forward","more":[1.5],"lags":[-2147483648,2147483648],"kind":"certificate","cycle":[{"to":7,"edge":4294967295,"kind":"edge"},{"to":0,"kind":"pin","from":4294967295}],"contexts":1,"contexts":16,"contents":["01","1"]}"#,
        r#"{"contents":["01","1"],"contexts":16,"cycle":[{"edge":4294967295,"kind":"edge"},{"from":4294967295,"kind":"pin","to":0}],"kind":"certificate","lags":[-2147483648,2147483648],"mode":"forward","period":18446744073709551615,"table":2,"version":2}"#,
    ),
    // Literals at both ends of their range.
    (
        r#"{"chains":[],"context":15,"contexts":16,"cycle":[],"derivation":[[-2147483648,2147483648],[1,-1],[]],"kind":"refusal","lags":[],"mode":"any","period":0,"table":2,"version":2}"#,
        r#"{"chains":[],"context":15,"contexts":16,"cycle":[],"derivation":[[-2147483648,2147483648],[1,-1],[]],"kind":"refusal","lags":[],"mode":"any","period":0,"table":2,"version":2}"#,
    ),
    // A member `table` in a paper of version 1 is passed over.
    (
        r#"{"contents":[],"contexts":1,"cycle":[],"kind":"certificate","lags":[],"mode":"any","period":0,"table":[9],"version":1}"#,
        r#"{"contents":[],"contexts":1,"cycle":[],"kind":"certificate","lags":[],"mode":"any","period":0,"table":1,"version":2}"#,
    ),
];

#[test]
fn papers(rt: HostRuntime) {
    assert_printed(&rt, rt.alloc(), &PAPERS);
}

// A certificate whose cycle goes round a loop of three edges so many times.
fn round_and_round(alloc: Global, times: usize) -> Result<String, AllocError> {
    let mut text = String::from_str(alloc, r#"{"contents":[],"contexts":1,"cycle":[{"edges":["#)?;
    for _ in 0..times {
        text.push_str("1,2,4,")?;
    }
    text.push_str(
        r#"3],"from":5,"kind":"path"}],"kind":"certificate","lags":[],"mode":"any","period":0,"table":1,"version":2}"#,
    )?;
    Ok(text)
}

#[test]
fn long_path(rt: HostRuntime) {
    let text = round_and_round(rt.alloc(), 30_000).expect(&rt, "a text");
    assert_printed(&rt, rt.alloc(), &[(text.as_str(), text.as_str())]);
}
