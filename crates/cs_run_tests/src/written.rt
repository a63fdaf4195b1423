// Documents that are written.

/// The inverter in three contexts.
pub(crate) const WRITTEN_INVERTER: &str = concat!(
    r#"{"creator":"cslow","modules":{"top":{"attributes":{"top":"00000000000000000000000000000001"},"#,
    r#""cells":{"$cs$g3":{"attributes":{"cslow_cell":"g"},"connections":{"A":[2],"Y":[3]},"hide_name":1,"#,
    r#""parameters":{},"port_directions":{"A":"input","Y":"output"},"type":"$_NOT_"}},"netnames":{},"#,
    r#""ports":{"a":{"bits":[2],"direction":"input"},"y":{"bits":[3],"direction":"output"}}}}}"#,
    "\n",
);

/// The register in two contexts.
pub(crate) const WRITTEN_REGISTER: &str = concat!(
    r#"{"creator":"cslow","modules":{"top":{"attributes":{"top":"00000000000000000000000000000001"},"#,
    r#""cells":{"$cs$r0":{"attributes":{},"connections":{"C":[2],"D":[3],"Q":[4]},"hide_name":1,"parameters":{},"#,
    r#""port_directions":{"C":"input","D":"input","Q":"output"},"type":"$_DFF_P_"},"#,
    r#""$cs$r1":{"attributes":{},"connections":{"C":[2],"D":[4],"Q":[5]},"hide_name":1,"parameters":{},"#,
    r#""port_directions":{"C":"input","D":"input","Q":"output"},"type":"$_DFF_P_"}},"#,
    r#""netnames":{"$cs$q0":{"attributes":{"init":"1"},"bits":[4],"hide_name":1},"#,
    r#""$cs$q1":{"attributes":{"init":"1"},"bits":[5],"hide_name":1}},"#,
    r#""ports":{"clk":{"bits":[2],"direction":"input"},"d":{"bits":[3],"direction":"input"},"#,
    r#""q":{"bits":[5],"direction":"output"}}}}}"#,
    "\n",
);

/// The gate without a name, its inverter and their register in three contexts: bits 2 and 3 are the inputs a and clk, 4
/// and 5 the gates, 6 to 8 the registers, the last of which the gate reads.
pub(crate) const WRITTEN_NAMELESS: &str = concat!(
    r#"{"creator":"cslow","modules":{"top":{"attributes":{"top":"00000000000000000000000000000001"},"#,
    r#""cells":{"$cs$g4":{"attributes":{},"connections":{"A":[8],"B":[2],"Y":[4]},"hide_name":1,"parameters":{},"#,
    r#""port_directions":{"A":"input","B":"input","Y":"output"},"type":"$_AND_"},"#,
    r#""$cs$g5":{"attributes":{"cslow_cell":"n"},"connections":{"A":[4],"Y":[5]},"hide_name":1,"parameters":{},"#,
    r#""port_directions":{"A":"input","Y":"output"},"type":"$_NOT_"},"#,
    r#""$cs$r0":{"attributes":{},"connections":{"C":[3],"D":[5],"Q":[6]},"hide_name":1,"parameters":{},"#,
    r#""port_directions":{"C":"input","D":"input","Q":"output"},"type":"$_DFF_P_"},"#,
    r#""$cs$r1":{"attributes":{},"connections":{"C":[3],"D":[6],"Q":[7]},"hide_name":1,"parameters":{},"#,
    r#""port_directions":{"C":"input","D":"input","Q":"output"},"type":"$_DFF_P_"},"#,
    r#""$cs$r2":{"attributes":{},"connections":{"C":[3],"D":[7],"Q":[8]},"hide_name":1,"parameters":{},"#,
    r#""port_directions":{"C":"input","D":"input","Q":"output"},"type":"$_DFF_P_"}},"#,
    r#""netnames":{"$cs$q0":{"attributes":{"init":"0"},"bits":[6],"hide_name":1},"#,
    r#""$cs$q1":{"attributes":{"init":"0"},"bits":[7],"hide_name":1},"#,
    r#""$cs$q2":{"attributes":{"init":"0"},"bits":[8],"hide_name":1}},"#,
    r#""ports":{"a":{"bits":[2],"direction":"input"},"clk":{"bits":[3],"direction":"input"},"#,
    r#""y":{"bits":[4,5],"direction":"output"}}}}}"#,
    "\n",
);

/// The inverter beside a register that nothing reads, in two contexts: a register that nothing reads keeps the clock.
pub(crate) const WRITTEN_UNREAD: &str = concat!(
    r#"{"creator":"cslow","modules":{"top":{"attributes":{"top":"00000000000000000000000000000001"},"#,
    r#""cells":{"$cs$g3":{"attributes":{"cslow_cell":"g"},"connections":{"A":[2],"Y":[4]},"hide_name":1,"#,
    r#""parameters":{},"port_directions":{"A":"input","Y":"output"},"type":"$_NOT_"},"#,
    r#""$cs$k":{"attributes":{},"connections":{"C":[3],"D":["0"],"Q":[5]},"hide_name":1,"parameters":{},"#,
    r#""port_directions":{"C":"input","D":"input","Q":"output"},"type":"$_DFF_P_"}},"netnames":{},"#,
    r#""ports":{"a":{"bits":[2],"direction":"input"},"clk":{"bits":[3],"direction":"input"},"#,
    r#""y":{"bits":[4],"direction":"output"}}}}}"#,
    "\n",
);
