// Memories, their ports and their words.
use crate::lines::assert_machine;

#[test]
fn machines(rt: HostRuntime) {
    for (items, wanted) in [
        // Four words of two bits, with a read and a write at one address.
        (
            r#"in clk 2; in a 3,4; in d 5,6; in w 7; out q 8,9; m $mem_v2 SIZE=4 ABITS=2 WIDTH=2 INIT="00001000" RD_PORTS=1 WR_PORTS=1 RD_CLK_ENABLE="0" WR_CLK_ENABLE="1" WR_CLK_POLARITY="1" RD_CLK:"x" RD_EN:"1" RD_ARST:"0" RD_SRST:"0" RD_ADDR:3,4 RD_DATA:8,9 WR_CLK:2 WR_EN:7,7 WR_ADDR:3,4 WR_DATA:5,6"#,
            "0 Host; 1 Input; 2 Input; 3 Input; 4 Input; 5 Input; 6 Output e0=8.0:; 7 Output e1=8.1:; \
            8 Read 0.0 e2=1.0: e3=2.0:; 9 Write 0.0 e4=1.0: e5=2.0: e6=3.0: e7=4.0: e8=5.0: e9=5.0:; \
            size 4 words 4 abits 2 width 2 start 00010000",
        ),
        // Three words for four addresses.
        (
            r#"in clk 2; in a 3,4; in d 5,6; in w 7; out q 8,9; m $mem_v2 SIZE=3 ABITS=2 WIDTH=2 INIT="001000" RD_PORTS=1 WR_PORTS=1 RD_CLK_ENABLE="0" WR_CLK_ENABLE="1" WR_CLK_POLARITY="1" RD_CLK:"x" RD_EN:"1" RD_ARST:"0" RD_SRST:"0" RD_ADDR:3,4 RD_DATA:8,9 WR_CLK:2 WR_EN:7,7 WR_ADDR:3,4 WR_DATA:5,6"#,
            "0 Host; 1 Input; 2 Input; 3 Input; 4 Input; 5 Input; 6 Output e0=8.0:; 7 Output e1=8.1:; \
            8 Read 0.0 e2=1.0: e3=2.0:; 9 Write 0.0 e4=1.0: e5=2.0: e6=3.0: e7=4.0: e8=5.0: e9=5.0:; \
            size 3 words 4 abits 2 width 2 start 00010000",
        ),
        // Two write ports, the first of constants alone.
        (
            r#"in clk 2; in a 3; in e 4,5; out q 6,7; m $mem_v2 SIZE=2 ABITS=1 WIDTH=2 INIT="0000" RD_PORTS=1 WR_PORTS=2 RD_CLK_ENABLE="0" WR_CLK_ENABLE="11" WR_CLK_POLARITY="11" RD_CLK:"x" RD_EN:"1" RD_ARST:"0" RD_SRST:"0" RD_ADDR:3 RD_DATA:6,7 WR_CLK:2,2 WR_EN:"1","1",4,5 WR_ADDR:3,3 WR_DATA:"1","1","0","0""#,
            "0 Host; 1 Input; 2 Input; 3 Input; 4 Output e0=6.0:; 5 Output e1=6.1:; 6 Read 0.0 e2=1.0:; \
            7 Write 0.0 e3=1.0: =1 =1 =1 =1; 8 Write 0.1 e4=1.0: =0 =0 e5=2.0: e6=3.0:; \
            size 2 words 2 abits 1 width 2 start 0000",
        ),
        // No write port and no clock.
        (
            r#"in a 2; out q 3; m $mem_v2 SIZE=2 ABITS=1 WIDTH=1 INIT="10" RD_PORTS=1 WR_PORTS=0 RD_CLK_ENABLE="0" RD_CLK:"x" RD_EN:"1" RD_ARST:"0" RD_SRST:"0" RD_ADDR:2 RD_DATA:3 WR_CLK: WR_EN: WR_ADDR: WR_DATA:"#,
            "0 Host; 1 Input; 2 Output e0=3.0:; 3 Read 0.0 e1=1.0:; size 2 words 2 abits 1 width 1 start 01",
        ),
        // More words than addresses.
        (
            r#"in a 2; out q 3; m $mem_v2 SIZE=4 ABITS=1 WIDTH=1 INIT="1110" RD_PORTS=1 WR_PORTS=0 RD_CLK_ENABLE="0" RD_CLK:"x" RD_EN:"1" RD_ARST:"0" RD_SRST:"0" RD_ADDR:2 RD_DATA:3 WR_CLK: WR_EN: WR_ADDR: WR_DATA:"#,
            "0 Host; 1 Input; 2 Output e0=3.0:; 3 Read 0.0 e1=1.0:; size 4 words 2 abits 1 width 1 start 01",
        ),
        // A register behind a clocked read, whose reset goes over its enable.
        (
            r#"in clk 2; in a 3; in en 4; in rst 5; out q 8; r $_DFF_P_ C:2 D:6 Q:8; m $mem_v2 SIZE=2 ABITS=1 WIDTH=1 INIT="10" RD_PORTS=1 WR_PORTS=0 RD_CLK_ENABLE="1" RD_CLK_POLARITY="1" RD_INIT_VALUE="1" RD_SRST_VALUE="0" RD_CE_OVER_SRST="0" RD_CLK:2 RD_EN:4 RD_ARST:"0" RD_SRST:5 RD_ADDR:3 RD_DATA:6 WR_CLK: WR_EN: WR_ADDR: WR_DATA:"#,
            "0 Host; 1 Input; 2 Input; 3 Input; 4 Output e0=7.0:10; 5 Read 0.0 e1=1.0:; \
            6 $_MUX_ e2=7.0:1 e3=5.0: e4=2.0:; 7 $_MUX_ e5=6.0: =0 e6=3.0:; \
            size 2 words 2 abits 1 width 1 start 01",
        ),
        // Two bits of a clocked read, whose enable goes over its reset.
        (
            r#"in clk 2; in a 3; in en 4; in rst 5; out q 6,7; m $mem_v2 SIZE=2 ABITS=1 WIDTH=2 INIT="1000" RD_PORTS=1 WR_PORTS=0 RD_CLK_ENABLE="1" RD_CLK_POLARITY="1" RD_INIT_VALUE="10" RD_SRST_VALUE="01" RD_CE_OVER_SRST="1" RD_CLK:2 RD_EN:4 RD_ARST:"0" RD_SRST:5 RD_ADDR:3 RD_DATA:6,7 WR_CLK: WR_EN: WR_ADDR: WR_DATA:"#,
            "0 Host; 1 Input; 2 Input; 3 Input; 4 Output e0=8.0:0; 5 Output e1=10.0:1; 6 Read 0.0 e2=1.0:; \
            7 $_MUX_ e3=6.0: =1 e4=3.0:; 8 $_MUX_ e5=8.0:0 e6=7.0: e7=2.0:; \
            9 $_MUX_ e8=6.1: =0 e9=3.0:; 10 $_MUX_ e10=10.0:1 e11=9.0: e12=2.0:; \
            size 2 words 2 abits 1 width 2 start 0001",
        ),
        // A clocked read that is always enabled and never reset.
        (
            r#"in clk 2; in a 3; out q 6; m $mem_v2 SIZE=2 ABITS=1 WIDTH=1 INIT="10" RD_PORTS=1 WR_PORTS=0 RD_CLK_ENABLE="1" RD_CLK_POLARITY="1" RD_INIT_VALUE="1" RD_SRST_VALUE="0" RD_CE_OVER_SRST="0" RD_CLK:2 RD_EN:"1" RD_ARST:"0" RD_SRST:"0" RD_ADDR:3 RD_DATA:6 WR_CLK: WR_EN: WR_ADDR: WR_DATA:"#,
            "0 Host; 1 Input; 2 Output e0=3.0:1; 3 Read 0.0 e1=1.0:; size 2 words 2 abits 1 width 1 start 01",
        ),
        // Two memories.
        (
            r#"in a 2; out q 3,4; n $mem_v2 SIZE=2 ABITS=1 WIDTH=1 INIT="01" RD_PORTS=1 WR_PORTS=0 RD_CLK_ENABLE="0" RD_CLK:"x" RD_EN:"1" RD_ARST:"0" RD_SRST:"0" RD_ADDR:2 RD_DATA:4 WR_CLK: WR_EN: WR_ADDR: WR_DATA:; m $mem_v2 SIZE=2 ABITS=1 WIDTH=1 INIT="10" RD_PORTS=1 WR_PORTS=0 RD_CLK_ENABLE="0" RD_CLK:"x" RD_EN:"1" RD_ARST:"0" RD_SRST:"0" RD_ADDR:2 RD_DATA:3 WR_CLK: WR_EN: WR_ADDR: WR_DATA:"#,
            "0 Host; 1 Input; 2 Output e0=4.0:; 3 Output e1=5.0:; 4 Read 0.0 e2=1.0:; 5 Read 1.0 e3=1.0:; \
            size 2 words 2 abits 1 width 1 start 01; size 2 words 2 abits 1 width 1 start 10",
        ),
    ] {
        assert_machine(&rt, rt.alloc(), items, wanted);
    }
}
