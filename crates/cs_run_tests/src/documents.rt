// Netlists as documents.

/// An inverter.
pub(crate) const INVERTER: &str = r#"{"modules":{"top":{
"ports":{"a":{"direction":"input","bits":[2]},"y":{"direction":"output","bits":[3]}},
"cells":{"g":{"type":"$_NOT_","port_directions":{"A":"input","Y":"output"},"connections":{"A":[2],"Y":[3]}}}}}}"#;

/// One register with the start 1.
pub(crate) const REGISTER: &str = r#"{"modules":{"top":{
"ports":{"clk":{"direction":"input","bits":[2]},"d":{"direction":"input","bits":[3]},"q":{"direction":"output","bits":[4]}},
"cells":{"r":{"type":"$_DFF_P_","connections":{"C":[2],"D":[3],"Q":[4]}}},
"netnames":{"q":{"bits":[4],"attributes":{"init":"1"}}}}}}"#;

/// An and-gate of the input and of a register that takes it, with the start 1.
pub(crate) const AND_FEEDBACK: &str = r#"{"modules":{"top":{
"ports":{"clk":{"direction":"input","bits":[2]},"a":{"direction":"input","bits":[3]},"y":{"direction":"output","bits":[5]}},
"cells":{"g":{"type":"$_AND_","connections":{"A":[3],"B":[4],"Y":[5]}},
"r":{"type":"$_DFF_P_","connections":{"C":[2],"D":[5],"Q":[4]}}},
"netnames":{"q":{"bits":[4],"attributes":{"init":"1"}}}}}}"#;

/// A register, with the start 0, of the xor-gate of the input and of itself.
pub(crate) const XOR_FEEDBACK: &str = r#"{"modules":{"top":{
"ports":{"clk":{"direction":"input","bits":[2]},"a":{"direction":"input","bits":[3]},"y":{"direction":"output","bits":[4]}},
"cells":{"r":{"type":"$_DFF_P_","connections":{"C":[2],"D":[5],"Q":[4]}},
"x":{"type":"$_XOR_","connections":{"A":[4],"B":[3],"Y":[5]}}},
"netnames":{"q":{"bits":[4],"attributes":{"init":"0"}}}}}}"#;

/// An and-gate, an inverter of it, and a register of that, which the gate reads. The gate has no name.
pub(crate) const NAMELESS: &str = r#"{"modules":{"top":{
"ports":{"clk":{"direction":"input","bits":[2]},"a":{"direction":"input","bits":[3]},"y":{"direction":"output","bits":[9,7]}},
"cells":{"":{"type":"$_AND_","connections":{"A":[8],"B":[3],"Y":[9]}},
"n":{"type":"$_NOT_","connections":{"A":[9],"Y":[7]}},
"r":{"type":"$_DFF_P_","connections":{"C":[2],"D":[7],"Q":[8]}}}}}}"#;

/// One register whose reset is over its enable, and one whose enable is over its reset, both with the start 1.
pub(crate) const RESETS: &str = r#"{"modules":{"top":{
"ports":{"clk":{"direction":"input","bits":[2]},"d":{"direction":"input","bits":[3]},"e":{"direction":"input","bits":[4]},
"r":{"direction":"input","bits":[5]},"s":{"direction":"output","bits":[6]},"t":{"direction":"output","bits":[7]}},
"cells":{"p":{"type":"$_SDFFE_PP0P_","connections":{"C":[2],"D":[3],"E":[4],"R":[5],"Q":[6]}},
"u":{"type":"$_SDFFCE_PP0P_","connections":{"C":[2],"D":[3],"E":[4],"R":[5],"Q":[7]}}},
"netnames":{"s":{"bits":[6],"attributes":{"init":"1"}},"t":{"bits":[7],"attributes":{"init":"1"}}}}}}"#;

/// Four words of two bits, with an unclocked read and a write at one address.
pub(crate) const MEMORY: &str = r#"{"modules":{"top":{
"ports":{"clk":{"direction":"input","bits":[2]},"a":{"direction":"input","bits":[3,4]},"d":{"direction":"input","bits":[5,6]},
"w":{"direction":"input","bits":[7]},"q":{"direction":"output","bits":[8,9]}},
"cells":{"m":{"type":"$mem_v2","parameters":{"SIZE":4,"WIDTH":2,"OFFSET":0,"INIT":"00001000","RD_PORTS":1,"WR_PORTS":1,
"RD_CLK_ENABLE":"0","RD_TRANSPARENCY_MASK":"0","WR_CLK_ENABLE":"1","WR_CLK_POLARITY":"1",
"ABITS":2},"connections":{"RD_ADDR":[3,4],"WR_ADDR":[3,4],
"RD_CLK":["x"],"RD_EN":["1"],"RD_ARST":["0"],"RD_SRST":["0"],"RD_DATA":[8,9],
"WR_CLK":[2],"WR_EN":[7,7],"WR_DATA":[5,6]}}}}}}"#;

/// Two words of two bits, with an unclocked read and two writes at one address: the first port writes 11, the second
/// writes 0 where it is enabled.
pub(crate) const TWO_WRITES: &str = r#"{"modules":{"top":{
"ports":{"clk":{"direction":"input","bits":[2]},"a":{"direction":"input","bits":[3]},"e":{"direction":"input","bits":[4,5]},
"q":{"direction":"output","bits":[6,7]}},
"cells":{"m":{"type":"$mem_v2","parameters":{"SIZE":2,"ABITS":1,"WIDTH":2,"INIT":"0000","RD_PORTS":1,"WR_PORTS":2,
"RD_CLK_ENABLE":"0","WR_CLK_ENABLE":"11","WR_CLK_POLARITY":"11"},"connections":{
"RD_CLK":["x"],"RD_EN":["1"],"RD_ARST":["0"],"RD_SRST":["0"],"RD_ADDR":[3],"RD_DATA":[6,7],
"WR_CLK":[2,2],"WR_EN":["1","1",4,5],"WR_ADDR":[3,3],"WR_DATA":["1","1","0","0"]}}}}}}"#;
