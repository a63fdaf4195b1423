// The vertices of one register, by its type and by what it has at its enable and its reset.
use crate::lines::assert_machine;
use std::alloc::{AllocError, Global};
use std::process::Abort;

// A row: a type, in which V is the reset value; the pins at which the enable may stand, and those of the reset, where
// the clock's stands again for a pin that the type hasn't; and the vertices from the output on. Bit 4 is an input, bit 5
// another, and nothing drives bit 9.
const REGISTERS: &str = r#"
$_DFF_P_|C:2|C:2|4 Output e0=1.0:0
$_DFF_N_|C:2|C:2|4 Output e0=1.0:0
$_DFFE_PP_|E:4|C:2|4 Output e0=5.0:0; 5 $_MUX_ e1=5.0:0 e2=1.0: e3=2.0:
$_DFFE_NP_|E:"0" E:"x" E:9|C:2|4 Output e0=5.0:0; 5 $_MUX_ e1=5.0:0 e2=1.0: =0
$_DFFE_PP_|E:"1"|C:2|4 Output e0=1.0:0
$_DFFE_NN_|E:4|C:2|4 Output e0=5.0:0; 5 $_MUX_ e1=1.0: e2=5.0:0 e3=2.0:
$_DFFE_PN_|E:"0" E:"x" E:9|C:2|4 Output e0=1.0:0
$_DFFE_NN_|E:"1"|C:2|4 Output e0=5.0:0; 5 $_MUX_ e1=1.0: e2=5.0:0 =1
$_SDFF_PPV_|C:2|R:5|4 Output e0=5.0:0; 5 $_MUX_ e1=1.0: =V e2=3.0:
$_SDFF_NPV_|C:2|R:"0" R:"x" R:9|4 Output e0=1.0:0
$_SDFF_PPV_|C:2|R:"1"|4 Output e0=5.0:0; 5 $_MUX_ e1=1.0: =V =1
$_SDFF_NNV_|C:2|R:5|4 Output e0=5.0:0; 5 $_MUX_ =V e1=1.0: e2=3.0:
$_SDFF_PNV_|C:2|R:"0" R:"x" R:9|4 Output e0=5.0:0; 5 $_MUX_ =V e1=1.0: =0
$_SDFF_NNV_|C:2|R:"1"|4 Output e0=1.0:0
$_SDFFE_PPVP_|E:4|R:5|4 Output e0=6.0:0; 5 $_MUX_ e1=6.0:0 e2=1.0: e3=2.0:; 6 $_MUX_ e4=5.0: =V e5=3.0:
$_SDFFE_NPVP_|E:4|R:"0" R:"x" R:9|4 Output e0=5.0:0; 5 $_MUX_ e1=5.0:0 e2=1.0: e3=2.0:
$_SDFFE_PPVP_|E:4|R:"1"|4 Output e0=6.0:0; 5 $_MUX_ e1=6.0:0 e2=1.0: e3=2.0:; 6 $_MUX_ e4=5.0: =V =1
$_SDFFE_NPVP_|E:"0" E:"x" E:9|R:5|4 Output e0=6.0:0; 5 $_MUX_ e1=6.0:0 e2=1.0: =0; 6 $_MUX_ e3=5.0: =V e4=3.0:
$_SDFFE_PPVP_|E:"0" E:"x" E:9|R:"0" R:"x" R:9|4 Output e0=5.0:0; 5 $_MUX_ e1=5.0:0 e2=1.0: =0
$_SDFFE_NPVP_|E:"0" E:"x" E:9|R:"1"|4 Output e0=6.0:0; 5 $_MUX_ e1=6.0:0 e2=1.0: =0; 6 $_MUX_ e3=5.0: =V =1
$_SDFFE_PPVP_|E:"1"|R:5|4 Output e0=5.0:0; 5 $_MUX_ e1=1.0: =V e2=3.0:
$_SDFFE_NPVP_|E:"1"|R:"0" R:"x" R:9|4 Output e0=1.0:0
$_SDFFE_PPVP_|E:"1"|R:"1"|4 Output e0=5.0:0; 5 $_MUX_ e1=1.0: =V =1
$_SDFFE_NNVP_|E:4|R:5|4 Output e0=6.0:0; 5 $_MUX_ e1=6.0:0 e2=1.0: e3=2.0:; 6 $_MUX_ =V e4=5.0: e5=3.0:
$_SDFFE_PNVP_|E:4|R:"0" R:"x" R:9|4 Output e0=6.0:0; 5 $_MUX_ e1=6.0:0 e2=1.0: e3=2.0:; 6 $_MUX_ =V e4=5.0: =0
$_SDFFE_NNVP_|E:4|R:"1"|4 Output e0=5.0:0; 5 $_MUX_ e1=5.0:0 e2=1.0: e3=2.0:
$_SDFFE_PNVP_|E:"0" E:"x" E:9|R:5|4 Output e0=6.0:0; 5 $_MUX_ e1=6.0:0 e2=1.0: =0; 6 $_MUX_ =V e3=5.0: e4=3.0:
$_SDFFE_NNVP_|E:"0" E:"x" E:9|R:"0" R:"x" R:9|4 Output e0=6.0:0; 5 $_MUX_ e1=6.0:0 e2=1.0: =0; 6 $_MUX_ =V e3=5.0: =0
$_SDFFE_PNVP_|E:"0" E:"x" E:9|R:"1"|4 Output e0=5.0:0; 5 $_MUX_ e1=5.0:0 e2=1.0: =0
$_SDFFE_NNVP_|E:"1"|R:5|4 Output e0=5.0:0; 5 $_MUX_ =V e1=1.0: e2=3.0:
$_SDFFE_PNVP_|E:"1"|R:"0" R:"x" R:9|4 Output e0=5.0:0; 5 $_MUX_ =V e1=1.0: =0
$_SDFFE_NNVP_|E:"1"|R:"1"|4 Output e0=1.0:0
$_SDFFE_PPVN_|E:4|R:5|4 Output e0=6.0:0; 5 $_MUX_ e1=1.0: e2=6.0:0 e3=2.0:; 6 $_MUX_ e4=5.0: =V e5=3.0:
$_SDFFE_NPVN_|E:4|R:"0" R:"x" R:9|4 Output e0=5.0:0; 5 $_MUX_ e1=1.0: e2=5.0:0 e3=2.0:
$_SDFFE_PPVN_|E:4|R:"1"|4 Output e0=6.0:0; 5 $_MUX_ e1=1.0: e2=6.0:0 e3=2.0:; 6 $_MUX_ e4=5.0: =V =1
$_SDFFE_NPVN_|E:"0" E:"x" E:9|R:5|4 Output e0=5.0:0; 5 $_MUX_ e1=1.0: =V e2=3.0:
$_SDFFE_PPVN_|E:"0" E:"x" E:9|R:"0" R:"x" R:9|4 Output e0=1.0:0
$_SDFFE_NPVN_|E:"0" E:"x" E:9|R:"1"|4 Output e0=5.0:0; 5 $_MUX_ e1=1.0: =V =1
$_SDFFE_PPVN_|E:"1"|R:5|4 Output e0=6.0:0; 5 $_MUX_ e1=1.0: e2=6.0:0 =1; 6 $_MUX_ e3=5.0: =V e4=3.0:
$_SDFFE_NPVN_|E:"1"|R:"0" R:"x" R:9|4 Output e0=5.0:0; 5 $_MUX_ e1=1.0: e2=5.0:0 =1
$_SDFFE_PPVN_|E:"1"|R:"1"|4 Output e0=6.0:0; 5 $_MUX_ e1=1.0: e2=6.0:0 =1; 6 $_MUX_ e3=5.0: =V =1
$_SDFFE_NNVN_|E:4|R:5|4 Output e0=6.0:0; 5 $_MUX_ e1=1.0: e2=6.0:0 e3=2.0:; 6 $_MUX_ =V e4=5.0: e5=3.0:
$_SDFFE_PNVN_|E:4|R:"0" R:"x" R:9|4 Output e0=6.0:0; 5 $_MUX_ e1=1.0: e2=6.0:0 e3=2.0:; 6 $_MUX_ =V e4=5.0: =0
$_SDFFE_NNVN_|E:4|R:"1"|4 Output e0=5.0:0; 5 $_MUX_ e1=1.0: e2=5.0:0 e3=2.0:
$_SDFFE_PNVN_|E:"0" E:"x" E:9|R:5|4 Output e0=5.0:0; 5 $_MUX_ =V e1=1.0: e2=3.0:
$_SDFFE_NNVN_|E:"0" E:"x" E:9|R:"0" R:"x" R:9|4 Output e0=5.0:0; 5 $_MUX_ =V e1=1.0: =0
$_SDFFE_PNVN_|E:"0" E:"x" E:9|R:"1"|4 Output e0=1.0:0
$_SDFFE_NNVN_|E:"1"|R:5|4 Output e0=6.0:0; 5 $_MUX_ e1=1.0: e2=6.0:0 =1; 6 $_MUX_ =V e3=5.0: e4=3.0:
$_SDFFE_PNVN_|E:"1"|R:"0" R:"x" R:9|4 Output e0=6.0:0; 5 $_MUX_ e1=1.0: e2=6.0:0 =1; 6 $_MUX_ =V e3=5.0: =0
$_SDFFE_NNVN_|E:"1"|R:"1"|4 Output e0=5.0:0; 5 $_MUX_ e1=1.0: e2=5.0:0 =1
$_SDFFCE_PPVP_|E:4|R:5|4 Output e0=6.0:0; 5 $_MUX_ e1=1.0: =V e2=3.0:; 6 $_MUX_ e3=6.0:0 e4=5.0: e5=2.0:
$_SDFFCE_NPVP_|E:4|R:"0" R:"x" R:9|4 Output e0=5.0:0; 5 $_MUX_ e1=5.0:0 e2=1.0: e3=2.0:
$_SDFFCE_PPVP_|E:4|R:"1"|4 Output e0=6.0:0; 5 $_MUX_ e1=1.0: =V =1; 6 $_MUX_ e2=6.0:0 e3=5.0: e4=2.0:
$_SDFFCE_NPVP_|E:"0" E:"x" E:9|R:5|4 Output e0=6.0:0; 5 $_MUX_ e1=1.0: =V e2=3.0:; 6 $_MUX_ e3=6.0:0 e4=5.0: =0
$_SDFFCE_PPVP_|E:"0" E:"x" E:9|R:"0" R:"x" R:9|4 Output e0=5.0:0; 5 $_MUX_ e1=5.0:0 e2=1.0: =0
$_SDFFCE_NPVP_|E:"0" E:"x" E:9|R:"1"|4 Output e0=6.0:0; 5 $_MUX_ e1=1.0: =V =1; 6 $_MUX_ e2=6.0:0 e3=5.0: =0
$_SDFFCE_PPVP_|E:"1"|R:5|4 Output e0=5.0:0; 5 $_MUX_ e1=1.0: =V e2=3.0:
$_SDFFCE_NPVP_|E:"1"|R:"0" R:"x" R:9|4 Output e0=1.0:0
$_SDFFCE_PPVP_|E:"1"|R:"1"|4 Output e0=5.0:0; 5 $_MUX_ e1=1.0: =V =1
$_SDFFCE_NNVP_|E:4|R:5|4 Output e0=6.0:0; 5 $_MUX_ =V e1=1.0: e2=3.0:; 6 $_MUX_ e3=6.0:0 e4=5.0: e5=2.0:
$_SDFFCE_PNVP_|E:4|R:"0" R:"x" R:9|4 Output e0=6.0:0; 5 $_MUX_ =V e1=1.0: =0; 6 $_MUX_ e2=6.0:0 e3=5.0: e4=2.0:
$_SDFFCE_NNVP_|E:4|R:"1"|4 Output e0=5.0:0; 5 $_MUX_ e1=5.0:0 e2=1.0: e3=2.0:
$_SDFFCE_PNVP_|E:"0" E:"x" E:9|R:5|4 Output e0=6.0:0; 5 $_MUX_ =V e1=1.0: e2=3.0:; 6 $_MUX_ e3=6.0:0 e4=5.0: =0
$_SDFFCE_NNVP_|E:"0" E:"x" E:9|R:"0" R:"x" R:9|4 Output e0=6.0:0; 5 $_MUX_ =V e1=1.0: =0; 6 $_MUX_ e2=6.0:0 e3=5.0: =0
$_SDFFCE_PNVP_|E:"0" E:"x" E:9|R:"1"|4 Output e0=5.0:0; 5 $_MUX_ e1=5.0:0 e2=1.0: =0
$_SDFFCE_NNVP_|E:"1"|R:5|4 Output e0=5.0:0; 5 $_MUX_ =V e1=1.0: e2=3.0:
$_SDFFCE_PNVP_|E:"1"|R:"0" R:"x" R:9|4 Output e0=5.0:0; 5 $_MUX_ =V e1=1.0: =0
$_SDFFCE_NNVP_|E:"1"|R:"1"|4 Output e0=1.0:0
$_SDFFCE_PPVN_|E:4|R:5|4 Output e0=6.0:0; 5 $_MUX_ e1=1.0: =V e2=3.0:; 6 $_MUX_ e3=5.0: e4=6.0:0 e5=2.0:
$_SDFFCE_NPVN_|E:4|R:"0" R:"x" R:9|4 Output e0=5.0:0; 5 $_MUX_ e1=1.0: e2=5.0:0 e3=2.0:
$_SDFFCE_PPVN_|E:4|R:"1"|4 Output e0=6.0:0; 5 $_MUX_ e1=1.0: =V =1; 6 $_MUX_ e2=5.0: e3=6.0:0 e4=2.0:
$_SDFFCE_NPVN_|E:"0" E:"x" E:9|R:5|4 Output e0=5.0:0; 5 $_MUX_ e1=1.0: =V e2=3.0:
$_SDFFCE_PPVN_|E:"0" E:"x" E:9|R:"0" R:"x" R:9|4 Output e0=1.0:0
$_SDFFCE_NPVN_|E:"0" E:"x" E:9|R:"1"|4 Output e0=5.0:0; 5 $_MUX_ e1=1.0: =V =1
$_SDFFCE_PPVN_|E:"1"|R:5|4 Output e0=6.0:0; 5 $_MUX_ e1=1.0: =V e2=3.0:; 6 $_MUX_ e3=5.0: e4=6.0:0 =1
$_SDFFCE_NPVN_|E:"1"|R:"0" R:"x" R:9|4 Output e0=5.0:0; 5 $_MUX_ e1=1.0: e2=5.0:0 =1
$_SDFFCE_PPVN_|E:"1"|R:"1"|4 Output e0=6.0:0; 5 $_MUX_ e1=1.0: =V =1; 6 $_MUX_ e2=5.0: e3=6.0:0 =1
$_SDFFCE_NNVN_|E:4|R:5|4 Output e0=6.0:0; 5 $_MUX_ =V e1=1.0: e2=3.0:; 6 $_MUX_ e3=5.0: e4=6.0:0 e5=2.0:
$_SDFFCE_PNVN_|E:4|R:"0" R:"x" R:9|4 Output e0=6.0:0; 5 $_MUX_ =V e1=1.0: =0; 6 $_MUX_ e2=5.0: e3=6.0:0 e4=2.0:
$_SDFFCE_NNVN_|E:4|R:"1"|4 Output e0=5.0:0; 5 $_MUX_ e1=1.0: e2=5.0:0 e3=2.0:
$_SDFFCE_PNVN_|E:"0" E:"x" E:9|R:5|4 Output e0=5.0:0; 5 $_MUX_ =V e1=1.0: e2=3.0:
$_SDFFCE_NNVN_|E:"0" E:"x" E:9|R:"0" R:"x" R:9|4 Output e0=5.0:0; 5 $_MUX_ =V e1=1.0: =0
$_SDFFCE_PNVN_|E:"0" E:"x" E:9|R:"1"|4 Output e0=1.0:0
$_SDFFCE_NNVN_|E:"1"|R:5|4 Output e0=6.0:0; 5 $_MUX_ =V e1=1.0: e2=3.0:; 6 $_MUX_ e3=5.0: e4=6.0:0 =1
$_SDFFCE_PNVN_|E:"1"|R:"0" R:"x" R:9|4 Output e0=6.0:0; 5 $_MUX_ =V e1=1.0: =0; 6 $_MUX_ e2=5.0: e3=6.0:0 =1
$_SDFFCE_NNVN_|E:"1"|R:"1"|4 Output e0=5.0:0; 5 $_MUX_ e1=1.0: e2=5.0:0 =1
"#;

// The text with this reset value.
fn with_value(alloc: Global, text: &str, value: &str) -> Result<String, AllocError> {
    let mut made = String::new(alloc);
    for (place, part) in text.split('V').enumerate() {
        if place != 0 {
            made.push_str(value)?;
        }
        made.push_str(part)?;
    }
    Ok(made)
}

// Both texts are of the register with V for its reset value.
fn assert_values(rt: &impl Abort, alloc: Global, items: &str, wanted: &str) {
    for value in ["0", "1"] {
        let items = with_value(alloc, items, value).expect(rt, "a text");
        let wanted = with_value(alloc, wanted, value).expect(rt, "a text");
        assert_machine(rt, alloc, items.as_str(), wanted.as_str());
    }
}

// What stands at the pins of the type of a row.
#[derive(Clone, Copy)]
struct Row<'a> {
    kind: &'a str,
    resets: &'a str,
    wanted: &'a str,
}

fn assert_resets(rt: &impl Abort, alloc: Global, row: Row<'_>, enable: &str) {
    let Row {
        kind,
        resets,
        wanted,
    } = row;
    let wanted = format!(in alloc; "0 Host; 1 Input; 2 Input; 3 Input; {wanted}");
    let wanted = wanted.expect(rt, "a text");
    for reset in resets.split(' ') {
        let items = format!(in alloc;
            "in clk 2; in d 3; in e 4; in r 5; out q 6; f {kind} C:2 D:3 {enable} {reset} Q:6"
        );
        let items = items.expect(rt, "a text");
        assert_values(rt, alloc, items.as_str(), wanted.as_str());
    }
}

fn assert_enables(rt: &impl Abort, alloc: Global, row: Row<'_>, enables: &str) {
    for enable in enables.split(' ') {
        assert_resets(rt, alloc, row, enable);
    }
}

fn parted<'a>(rt: &impl Abort, row: &'a str) -> (&'a str, &'a str) {
    row.split_once('|').expect(rt, "another column")
}

fn assert_row(rt: &impl Abort, alloc: Global, row: &str) {
    let (kind, rest) = parted(rt, row);
    let (enables, rest) = parted(rt, rest);
    let (resets, wanted) = parted(rt, rest);
    let row = Row {
        kind,
        resets,
        wanted,
    };
    assert_enables(rt, alloc, row, enables);
}

#[test]
fn of_each_type(rt: HostRuntime) {
    for row in REGISTERS.trim().split('\n') {
        assert_row(&rt, rt.alloc(), row);
    }
}

// What an enable keeps is the register's own output where Q is a text, which nothing else reads; it starts with 0, and
// that of a clocked read as the port says.
#[test]
fn of_texts(rt: HostRuntime) {
    for (items, wanted) in [
        (
            r#"in clk 2; in d 3; in e 4; r $_DFFE_PP_ C:2 D:3 E:4 Q:"0""#,
            "0 Host; 1 Input; 2 Input; 3 $_MUX_ e0=3.0:0 e1=1.0: e2=2.0:",
        ),
        (
            r#"in clk 2; in d 3; in e 4; in r 5; f $_SDFFE_PP0P_ C:2 D:3 E:4 R:5 Q:"1""#,
            "0 Host; 1 Input; 2 Input; 3 Input; 4 $_MUX_ e0=5.0:0 e1=1.0: e2=2.0:; 5 $_MUX_ e3=4.0: =0 e4=3.0:",
        ),
        (
            r#"in clk 2; in d 3; in e 4; in r 5; f $_SDFFCE_PP0P_ C:2 D:3 E:4 R:5 Q:"x""#,
            "0 Host; 1 Input; 2 Input; 3 Input; 4 $_MUX_ e0=1.0: =0 e1=3.0:; 5 $_MUX_ e2=5.0:0 e3=4.0: e4=2.0:",
        ),
        (
            r#"in clk 2; in d 3; in e 4; f $_SDFFE_PP0P_ C:2 D:3 E:4 R:"0" Q:"0""#,
            "0 Host; 1 Input; 2 Input; 3 $_MUX_ e0=3.0:0 e1=1.0: e2=2.0:",
        ),
        (
            r#"in clk 2; in a 3; in en 4; m $mem_v2 SIZE=2 ABITS=1 WIDTH=1 INIT="10" RD_PORTS=1 WR_PORTS=0 RD_CLK_ENABLE="1" RD_CLK_POLARITY="1" RD_INIT_VALUE="1" RD_SRST_VALUE="0" RD_CE_OVER_SRST="0" RD_CLK:2 RD_EN:4 RD_ARST:"0" RD_SRST:"0" RD_ADDR:3 RD_DATA:"x" WR_CLK: WR_EN: WR_ADDR: WR_DATA:"#,
            "0 Host; 1 Input; 2 Input; 3 Read 0.0 e0=1.0:; 4 $_MUX_ e1=4.0:1 e2=3.0: e3=2.0:; \
            size 2 words 2 abits 1 width 1 start 01",
        ),
    ] {
        assert_machine(&rt, rt.alloc(), items, wanted);
    }
}
