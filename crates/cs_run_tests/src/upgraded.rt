// The command `upgrade`.
use crate::running::{assert_run, store_of};

/// The certificate of an inverter in three contexts, of version 1.
pub(crate) const OLD_PAPER: &str =
    r#"{"contents":["",""],"contexts":3,"cycle":[{"edges":[],"from":3,"kind":"path"}],"kind":"certificate","lags":[0,0,0,0],"mode":"any","period":2,"version":1}"#;

const NEW_PAPER: &str =
    r#"{"contents":["",""],"contexts":3,"cycle":[{"edges":[],"from":3,"kind":"path"}],"kind":"certificate","lags":[0,0,0,0],"mode":"any","period":2,"table":1,"version":2}
"#;

const LATER_PAPER: &str =
    r#"{"contents":["",""],"contexts":3,"cycle":[{"edges":[],"from":3,"kind":"path"}],"kind":"certificate","lags":[0,0,0,0],"mode":"any","period":2,"table":1,"version":3}"#;

// The last two rows read and write one file: first that of version 1, then the text that was made of it.
#[test]
fn papers(rt: HostRuntime) {
    let mut store = store_of(
        &rt,
        &[("old", OLD_PAPER), ("later", LATER_PAPER), ("text", "x")],
    );
    for (words, status, text, name, holds) in [
        (
            "upgrade later new",
            12,
            "certificate: bad shape at /version\n",
            "new",
            None,
        ),
        (
            "upgrade text new",
            12,
            "certificate: not json\n",
            "new",
            None,
        ),
        ("upgrade none new", 3, "cannot read none\n", "new", None),
        ("upgrade old", 2, "usage: words of upgrade\n", "new", None),
        ("upgrade old new", 0, "", "new", Some(NEW_PAPER)),
        ("upgrade old new", 0, "", "old", Some(OLD_PAPER)),
        ("upgrade old old", 0, "", "old", Some(NEW_PAPER)),
        ("upgrade old old", 0, "", "old", Some(NEW_PAPER)),
    ] {
        assert_run(&rt, &mut store, words, status, text);
        assert!(rt;
            store.file(name) == holds.map(|text| text.as_bytes()),
            "{words}"
        );
    }
}
