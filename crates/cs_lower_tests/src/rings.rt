// Rings of registers, and registers behind constants.
use crate::lines::assert_machine;

#[test]
fn machines(rt: HostRuntime) {
    for (items, wanted) in [
        // A register that feeds itself.
        (
            "in clk 2; out y 3; r $_DFF_P_ C:2 D:3 Q:3; init 3 1",
            "0 Host; 1 Output e0=2.0:; 2 $_BUF_ e1=2.0:1",
        ),
        // Three registers in a ring, whose least bit isn't that of its first cell.
        (
            "in clk 2; out y 5; r $_DFF_P_ C:2 D:4 Q:5; s $_DFF_P_ C:2 D:3 Q:4; t $_DFF_P_ C:2 D:5 Q:3; \
            init 3 1; init 4 1; init 5 0",
            "0 Host; 1 Output e0=2.0:10; 2 $_BUF_ e1=2.0:101",
        ),
        // A gate that reads two rings, and a chain that hangs on the first.
        (
            "in clk 2; out y 6; out z 8; g $_AND_ A:4 B:5 Y:6; q $_DFF_P_ C:2 D:5 Q:5; \
            r $_DFF_P_ C:2 D:4 Q:3; s $_DFF_P_ C:2 D:3 Q:4; t $_DFF_P_ C:2 D:3 Q:7; u $_DFF_P_ C:2 D:7 Q:8; \
            init 3 1; init 4 0; init 5 1; init 7 0; init 8 1",
            "0 Host; 1 Output e0=3.0:; 2 Output e1=4.0:01; 3 $_AND_ g e2=4.0:0 e3=5.0:; \
            4 $_BUF_ e4=4.0:01; 5 $_BUF_ e5=5.0:1",
        ),
        // A ring that only a chain reads, at a bit that isn't its least.
        (
            "in clk 2; out z 5; r $_DFF_P_ C:2 D:4 Q:3; s $_DFF_P_ C:2 D:3 Q:4; t $_DFF_P_ C:2 D:4 Q:5; \
            init 3 0; init 4 1; init 5 0",
            "0 Host; 1 Output e0=2.0:10; 2 $_BUF_ e1=2.0:10",
        ),
        // A register with an enable that keeps itself is no ring.
        (
            "in clk 2; in e 4; out y 3; r $_DFFE_PP_ C:2 D:3 E:4 Q:3; init 3 1",
            "0 Host; 1 Input; 2 Output e0=3.0:1; 3 $_MUX_ e1=3.0:1 e2=3.0:1 e3=1.0:",
        ),
        // It is one where its enable is active for good.
        (
            r#"in clk 2; out y 3; r $_DFFE_PP_ C:2 D:3 E:"1" Q:3; init 3 1"#,
            "0 Host; 1 Output e0=2.0:; 2 $_BUF_ e1=2.0:1",
        ),
        // A register behind the constant 1.
        (
            r#"in clk 2; out y 3; r $_DFF_P_ C:2 D:"1" Q:3; init 3 0"#,
            "0 Host; 1 Output e0=2.0:0; 2 Constant 1",
        ),
        // Registers behind a bit that nothing drives, and behind x.
        (
            r#"in clk 2; out y 4,5; r $_DFF_P_ C:2 D:9 Q:3; s $_DFF_P_ C:2 D:3 Q:4; t $_DFF_P_ C:2 D:"x" Q:5; init 3 1"#,
            "0 Host; 1 Output e0=3.0:10; 2 Output e1=3.0:0; 3 Constant 0",
        ),
        // Registers behind both constants, which stand behind the ring buffers.
        (
            r#"in clk 2; out y 3,4,5; q $_DFF_P_ C:2 D:5 Q:5; r $_DFF_P_ C:2 D:"1" Q:3; s $_DFF_P_ C:2 D:9 Q:4; init 4 1"#,
            "0 Host; 1 Output e0=6.0:0; 2 Output e1=5.0:1; 3 Output e2=4.0:; 4 $_BUF_ e3=4.0:0; \
            5 Constant 0; 6 Constant 1",
        ),
    ] {
        assert_machine(&rt, rt.alloc(), items, wanted);
    }
}
