// Machines of small netlists, number by number.
use crate::lines::assert_machine;

#[test]
fn machines(rt: HostRuntime) {
    for (items, wanted) in [
        // An inverter.
        (
            "in a 2; out y 3; g $_NOT_ A:2 Y:3",
            "0 Host; 1 Input; 2 Output e0=3.0:; 3 $_NOT_ g e1=1.0:",
        ),
        // A register that starts with 1.
        (
            "in clk 2; in d 3; out q 4; r $_DFF_P_ C:2 D:3 Q:4; init 4 1",
            "0 Host; 1 Input; 2 Output e0=1.0:1",
        ),
        // A register of its exclusive or with the input.
        (
            "in clk 2; in a 3; out y 4; r $_DFF_P_ C:2 D:5 Q:4; x $_XOR_ A:4 B:3 Y:5",
            "0 Host; 1 Input; 2 Output e0=3.0:0; 3 $_XOR_ x e1=3.0:0 e2=1.0:",
        ),
        // Two inverters and an exclusive or in a loop.
        (
            "in clk 2; in a 3; out y 8; n1 $_NOT_ A:5 Y:6; n2 $_NOT_ A:6 Y:7; ra $_DFF_P_ C:2 D:3 Q:4; \
            rq $_DFF_P_ C:2 D:7 Q:8; x $_XOR_ A:4 B:8 Y:5; init 4 0; init 8 0",
            "0 Host; 1 Input; 2 Output e0=4.0:0; 3 $_NOT_ n1 e1=5.0:; 4 $_NOT_ n2 e2=3.0:; \
            5 $_XOR_ x e3=1.0:0 e4=4.0:0",
        ),
        // Two gates before a register.
        (
            "in clk 2; in a 3; in b 4; out y 7; g $_AND_ A:3 B:4 Y:5; h $_NOT_ A:5 Y:6; \
            r $_DFF_P_ C:2 D:6 Q:7; init 7 0",
            "0 Host; 1 Input; 2 Input; 3 Output e0=5.0:0; 4 $_AND_ g e1=1.0: e2=2.0:; 5 $_NOT_ h e3=4.0:",
        ),
        // The same before two registers that start with 0 and 1.
        (
            "in clk 2; in a 3; in b 4; out y 7; out z 8; g $_AND_ A:3 B:4 Y:5; h $_NOT_ A:5 Y:6; \
            r $_DFF_P_ C:2 D:6 Q:7; s $_DFF_P_ C:2 D:6 Q:8; init 7 0; init 8 1",
            "0 Host; 1 Input; 2 Input; 3 Output e0=6.0:0; 4 Output e1=6.0:1; \
            5 $_AND_ g e2=1.0: e3=2.0:; 6 $_NOT_ h e4=5.0:",
        ),
        // The two orders of enable and reset.
        (
            "in clk 2; in d 3; in e 4; in r 5; out s 6; out t 7; p $_SDFFE_PP0P_ C:2 D:3 E:4 R:5 Q:6; \
            u $_SDFFCE_PP0P_ C:2 D:3 E:4 R:5 Q:7; init 6 1; init 7 1",
            "0 Host; 1 Input; 2 Input; 3 Input; 4 Output e0=7.0:1; 5 Output e1=9.0:1; \
            6 $_MUX_ e2=7.0:1 e3=1.0: e4=2.0:; 7 $_MUX_ e5=6.0: =0 e6=3.0:; \
            8 $_MUX_ e7=1.0: =0 e8=3.0:; 9 $_MUX_ e9=9.0:1 e10=8.0: e11=2.0:",
        ),
        // A counter of four bits.
        (
            "in clk 2; in en 4; in rst 3; out q 5,6,7,8; a1 $_AND_ A:5 B:6 Y:13; a2 $_AND_ A:7 B:13 Y:14; \
            f0 $_SDFFE_PP0P_ C:2 D:9 E:4 R:3 Q:5; f1 $_SDFFE_PP0P_ C:2 D:10 E:4 R:3 Q:6; \
            f2 $_SDFFE_PP0P_ C:2 D:11 E:4 R:3 Q:7; f3 $_SDFFE_PP0P_ C:2 D:12 E:4 R:3 Q:8; \
            n0 $_NOT_ A:5 Y:9; x1 $_XOR_ A:5 B:6 Y:10; x2 $_XOR_ A:7 B:13 Y:11; x3 $_XOR_ A:8 B:14 Y:12",
            "0 Host; 1 Input; 2 Input; 3 Output e0=10.0:0; 4 Output e1=12.0:0; 5 Output e2=14.0:0; \
            6 Output e3=16.0:0; 7 $_AND_ a1 e4=10.0:0 e5=12.0:0; 8 $_AND_ a2 e6=14.0:0 e7=7.0:; \
            9 $_MUX_ e8=10.0:0 e9=17.0: e10=1.0:; 10 $_MUX_ e11=9.0: =0 e12=2.0:; \
            11 $_MUX_ e13=12.0:0 e14=18.0: e15=1.0:; 12 $_MUX_ e16=11.0: =0 e17=2.0:; \
            13 $_MUX_ e18=14.0:0 e19=19.0: e20=1.0:; 14 $_MUX_ e21=13.0: =0 e22=2.0:; \
            15 $_MUX_ e23=16.0:0 e24=20.0: e25=1.0:; 16 $_MUX_ e26=15.0: =0 e27=2.0:; \
            17 $_NOT_ n0 e28=10.0:0; 18 $_XOR_ x1 e29=10.0:0 e30=12.0:0; \
            19 $_XOR_ x2 e31=14.0:0 e32=7.0:; 20 $_XOR_ x3 e33=16.0:0 e34=8.0:",
        ),
        // Gates and outputs of constants and of bits that nothing drives.
        (
            r#"out y "0","1","x",9,3; g $_AND_ A:"1" B:9 Y:3"#,
            "0 Host; 1 Output =0; 2 Output =1; 3 Output =0; 4 Output =0; 5 Output e0=6.0:; 6 $_AND_ g =1 =0",
        ),
    ] {
        assert_machine(&rt, rt.alloc(), items, wanted);
    }
}
