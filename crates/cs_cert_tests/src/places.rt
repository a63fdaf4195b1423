// Where papers are refused: at the first place of the walk.
use crate::papers::line_of;

const PLACES: [(&str, &str); 61] = [
    (r#""#, "not json"),
    (r#"{"#, "not json"),
    (r#"[]"#, "bad shape at "),
    (r#"7"#, "bad shape at "),
    (r#"{}"#, "bad shape at /kind"),
    (
        r#"{"contents":7,"kind":"certificates"}"#,
        "bad shape at /kind",
    ),
    (
        r#"{"contents":7,"kind":["certificate"]}"#,
        "bad shape at /kind",
    ),
    (r#"{"kind":"certificate"}"#, "bad shape at /contents"),
    (
        r#"{"contents":["0","2"],"contexts":1,"cycle":[],"kind":"certificate","lags":[],"mode":"any","period":0,"table":1,"version":2}"#,
        "bad shape at /contents/1",
    ),
    (
        r#"{"contents":[["0"]],"contexts":1,"cycle":[],"kind":"certificate","lags":[],"mode":"any","period":0,"table":1,"version":2}"#,
        "bad shape at /contents/0",
    ),
    (
        r#"{"contents":[],"contexts":-1,"cycle":[],"kind":"certificate","lags":[],"mode":"any","period":0,"table":1,"version":2}"#,
        "bad shape at /contexts",
    ),
    (
        r#"{"contents":[],"contexts":1.0,"cycle":[],"kind":"certificate","lags":[],"mode":"any","period":0,"table":1,"version":2}"#,
        "bad shape at /contexts",
    ),
    (
        r#"{"contents":[],"contexts":18446744073709551616,"cycle":[],"kind":"certificate","lags":[],"mode":"any","period":0,"table":1,"version":2}"#,
        "bad shape at /contexts",
    ),
    (
        r#"{"contents":[],"contexts":1,"cycle":{},"kind":"certificate","lags":[],"mode":"any","period":0,"table":1,"version":2}"#,
        "bad shape at /cycle",
    ),
    (
        r#"{"contents":[],"contexts":1,"cycle":[[]],"kind":"certificate","lags":[],"mode":"any","period":0,"table":1,"version":2}"#,
        "bad shape at /cycle/0",
    ),
    (
        r#"{"contents":[],"contexts":1,"cycle":[{"edge":-1}],"kind":"certificate","lags":[],"mode":"any","period":0,"table":1,"version":2}"#,
        "bad shape at /cycle/0/kind",
    ),
    (
        r#"{"contents":[],"contexts":1,"cycle":[{"edge":-1,"kind":"edges"}],"kind":"certificate","lags":[],"mode":"any","period":0,"table":1,"version":2}"#,
        "bad shape at /cycle/0/kind",
    ),
    (
        r#"{"contents":[],"contexts":1,"cycle":[{"edge":0,"kind":"edge"},{"from":0,"kind":"edge"}],"kind":"certificate","lags":[],"mode":"any","period":0,"table":1,"version":2}"#,
        "bad shape at /cycle/1/edge",
    ),
    (
        r#"{"contents":[],"contexts":1,"cycle":[{"edge":4294967296,"kind":"edge"}],"kind":"certificate","lags":[],"mode":"any","period":0,"table":1,"version":2}"#,
        "bad shape at /cycle/0/edge",
    ),
    (
        r#"{"contents":[],"contexts":1,"cycle":[{"edges":[0,"1"],"kind":"path"}],"kind":"certificate","lags":[],"mode":"any","period":0,"table":1,"version":2}"#,
        "bad shape at /cycle/0/edges/1",
    ),
    (
        r#"{"contents":[],"contexts":1,"cycle":[{"edges":[],"kind":"path"}],"kind":"certificate","lags":[],"mode":"any","period":0,"table":1,"version":2}"#,
        "bad shape at /cycle/0/from",
    ),
    (
        r#"{"contents":[],"contexts":1,"cycle":[{"from":0,"kind":"pin"}],"kind":"certificate","lags":[],"mode":"any","period":0,"table":1,"version":2}"#,
        "bad shape at /cycle/0/to",
    ),
    (
        r#"{"contents":[],"contexts":1,"cycle":[{"kind":"pin","to":0}],"kind":"certificate","lags":[],"mode":"any","period":0,"table":1,"version":2}"#,
        "bad shape at /cycle/0/from",
    ),
    (
        r#"{"contents":[],"contexts":1,"cycle":[],"kind":"certificate","lags":[0,2147483649],"mode":"any","period":0,"table":1,"version":2}"#,
        "bad shape at /lags/1",
    ),
    (
        r#"{"contents":[],"contexts":1,"cycle":[],"kind":"certificate","lags":[-2147483649],"mode":"any","period":0,"table":1,"version":2}"#,
        "bad shape at /lags/0",
    ),
    (
        r#"{"contents":[],"contexts":1,"cycle":[],"kind":"certificate","lags":[1.0],"mode":"any","period":0,"table":1,"version":2}"#,
        "bad shape at /lags/0",
    ),
    (
        r#"{"contents":[],"contexts":1,"cycle":[],"kind":"certificate","lags":[],"mode":"none","period":0,"table":1,"version":2}"#,
        "bad shape at /mode",
    ),
    (
        r#"{"contents":[],"contexts":1,"cycle":[],"kind":"certificate","lags":[],"mode":"any","period":"","table":1,"version":2}"#,
        "bad shape at /period",
    ),
    (
        r#"{"contents":[],"contexts":1,"cycle":[],"kind":"certificate","lags":[],"mode":"any","period":0,"table":0,"version":2}"#,
        "bad shape at /table",
    ),
    (
        r#"{"contents":[],"contexts":1,"cycle":[],"kind":"certificate","lags":[],"mode":"any","period":0,"version":2}"#,
        "bad shape at /table",
    ),
    (
        r#"{"contents":[],"contexts":1,"cycle":[],"kind":"certificate","lags":[],"mode":"any","period":0,"table":0,"version":3}"#,
        "bad shape at /version",
    ),
    (
        r#"{"contents":[],"contexts":1,"cycle":[],"kind":"certificate","lags":[],"mode":"any","period":0,"table":0}"#,
        "bad shape at /version",
    ),
    (
        r#"{"contents":[],"contexts":1,"cycle":[],"kind":"certificate","lags":[],"mode":"any","period":0,"table":1,"version":"1"}"#,
        "bad shape at /version",
    ),
    (
        r#"{"chains":0,"context":0,"contexts":1,"cycle":[],"derivation":[],"kind":"refusal","lags":[],"mode":"any","period":0,"table":1,"version":2}"#,
        "bad shape at /chains",
    ),
    (
        r#"{"chains":[],"context":null,"contexts":1,"cycle":[],"derivation":[],"kind":"refusal","lags":[],"mode":"any","period":0,"table":1,"version":2}"#,
        "bad shape at /context",
    ),
    (
        r#"{"chains":[],"context":0,"cycle":[],"derivation":[],"kind":"refusal","lags":[],"mode":"any","period":0,"table":1,"version":2}"#,
        "bad shape at /contexts",
    ),
    (
        r#"{"chains":[],"context":0,"contexts":1,"cycle":[0],"derivation":[],"kind":"refusal","lags":[],"mode":"any","period":0,"table":1,"version":2}"#,
        "bad shape at /cycle/0",
    ),
    (
        r#"{"chains":[],"context":0,"contexts":1,"cycle":[],"derivation":[[1],[2,0]],"kind":"refusal","lags":[],"mode":"any","period":0,"table":1,"version":2}"#,
        "bad shape at /derivation/1/1",
    ),
    (
        r#"{"chains":[],"context":0,"contexts":1,"cycle":[],"derivation":[[-2147483649]],"kind":"refusal","lags":[],"mode":"any","period":0,"table":1,"version":2}"#,
        "bad shape at /derivation/0/0",
    ),
    (
        r#"{"chains":[],"context":0,"contexts":1,"cycle":[],"derivation":[[2147483649]],"kind":"refusal","lags":[],"mode":"any","period":0,"table":1,"version":2}"#,
        "bad shape at /derivation/0/0",
    ),
    (
        r#"{"chains":[],"context":0,"contexts":1,"cycle":[],"derivation":[1],"kind":"refusal","lags":[],"mode":"any","period":0,"table":1,"version":2}"#,
        "bad shape at /derivation/0",
    ),
    (
        r#"{"chains":[],"context":0,"contexts":1,"cycle":[],"derivation":{},"kind":"refusal","lags":[],"mode":"any","period":0,"table":1,"version":2}"#,
        "bad shape at /derivation",
    ),
    (
        r#"{"chains":[],"context":0,"contexts":1,"cycle":[],"derivation":[],"kind":"refusal","lags":{},"mode":"any","period":0,"table":1,"version":2}"#,
        "bad shape at /lags",
    ),
    (
        r#"{"chains":[],"context":0,"contexts":1,"cycle":[],"derivation":[],"kind":"refusal","lags":[],"mode":0,"period":0,"table":1,"version":2}"#,
        "bad shape at /mode",
    ),
    (
        r#"{"chains":[],"context":0,"contexts":1,"cycle":[],"derivation":[],"kind":"refusal","lags":[],"mode":"any","period":-0,"table":1,"version":2}"#,
        "bad shape at /period",
    ),
    (
        r#"{"chains":[],"context":0,"contexts":1,"cycle":[],"derivation":[],"kind":"refusal","lags":[],"mode":"any","period":0,"table":3,"version":2}"#,
        "bad shape at /table",
    ),
    (
        r#"{"chains":[],"context":0,"contexts":1,"cycle":[],"derivation":[],"kind":"refusal","lags":[],"mode":"any","period":0,"table":1,"version":0}"#,
        "bad shape at /version",
    ),
    (
        r#"{"below":[""],"chains":[],"contents":[],"context":0,"contexts":1,"derivation":[],"kind":"fallback","lags":[],"mode":"any","period":0,"table":1,"version":2}"#,
        "bad shape at /below/0",
    ),
    (
        r#"{"below":[],"chains":[{}],"contents":[],"context":0,"contexts":1,"derivation":[],"kind":"fallback","lags":[],"mode":"any","period":0,"table":1,"version":2}"#,
        "bad shape at /chains/0/kind",
    ),
    (
        r#"{"below":[],"chains":[],"context":0,"contexts":1,"derivation":[],"kind":"fallback","lags":[],"mode":"any","period":0,"table":1,"version":2}"#,
        "bad shape at /contents",
    ),
    (
        r#"{"below":[],"chains":[],"contents":[],"context":"0","contexts":1,"derivation":[],"kind":"fallback","lags":[],"mode":"any","period":0,"table":1,"version":2}"#,
        "bad shape at /context",
    ),
    (
        r#"{"below":[],"chains":[],"contents":[],"context":0,"contexts":[],"derivation":[],"kind":"fallback","lags":[],"mode":"any","period":0,"table":1,"version":2}"#,
        "bad shape at /contexts",
    ),
    (
        r#"{"below":[],"chains":[],"contents":[],"context":0,"contexts":1,"derivation":[[true]],"kind":"fallback","lags":[],"mode":"any","period":0,"table":1,"version":2}"#,
        "bad shape at /derivation/0/0",
    ),
    (
        r#"{"below":[],"chains":[],"contents":[],"context":0,"contexts":1,"derivation":[],"kind":"fallback","lags":[null],"mode":"any","period":0,"table":1,"version":2}"#,
        "bad shape at /lags/0",
    ),
    (
        r#"{"below":[],"chains":[],"contents":[],"context":0,"contexts":1,"derivation":[],"kind":"fallback","lags":[],"period":0,"table":1,"version":2}"#,
        "bad shape at /mode",
    ),
    (
        r#"{"below":[],"chains":[],"contents":[],"context":0,"contexts":1,"derivation":[],"kind":"fallback","lags":[],"mode":"any","table":1,"version":2}"#,
        "bad shape at /period",
    ),
    (
        r#"{"below":[],"chains":[],"contents":[],"context":0,"contexts":1,"derivation":[],"kind":"fallback","lags":[],"mode":"any","period":0,"table":"1","version":2}"#,
        "bad shape at /table",
    ),
    (
        r#"{"below":[],"chains":[],"contents":[],"context":0,"contexts":1,"derivation":[],"kind":"fallback","lags":[],"mode":"any","period":0,"table":1,"version":2.0}"#,
        "bad shape at /version",
    ),
    (
        r#"{"contents":["",""],"contexts":3,"cycle":[{"edges":[],"from":3,"kind":"path"}],"kind":"certificate","lags":[0,0,0,0],"mode":"any","period":2,"version":3}"#,
        "bad shape at /version",
    ),
    (
        r#"{"chains":[{"edges":[2,4],"from":1,"kind":"path"}],"context":0,"contexts":1,"cycle":[{"edges":[],"from":5,"kind":"path"}],"derivation":[[]],"kind":"certificate","lags":[0,0,0,0,0,0,1],"mode":"any","period":5,"version":1}"#,
        "bad shape at /contents",
    ),
    (
        r#"{"below":7,"chains":7,"kind":"fallback"}"#,
        "bad shape at /below",
    ),
];

#[test]
fn places(rt: HostRuntime) {
    for (text, wanted) in PLACES {
        let found = line_of(rt.alloc(), text).expect(&rt, "a line");
        assert!(rt; found.as_str() == wanted, "{text}: {found}");
    }
}
