// Netlists as documents.

/// A counter of four bits with a reset and an enable, as Yosys writes it.
pub(crate) const COUNTER: &str =
    r#"{"creator":"Yosys 0.38 (git sha1 000000000, gcc 12.2.0 -fPIC -Os)","modules":{"counter":{
"attributes":{"cells_not_processed":"00000000000000000000000000000001","src":"counter.v:1.1-14.10",
"top":"00000000000000000000000000000001"},
"ports":{"clk":{"direction":"input","bits":[2]},"rst":{"direction":"input","bits":[3]},
"en":{"direction":"input","bits":[4]},"q":{"direction":"output","bits":[5,6,7,8]}},
"cells":{"a1":{"hide_name":1,"type":"$_AND_","parameters":{},"attributes":{"src":"counter.v:7.3-12.6"},
"port_directions":{"A":"input","B":"input","Y":"output"},"connections":{"A":[5],"B":[6],"Y":[13]}},
"a2":{"hide_name":1,"type":"$_AND_","parameters":{},"attributes":{"src":"counter.v:7.3-12.6"},
"port_directions":{"A":"input","B":"input","Y":"output"},"connections":{"A":[7],"B":[13],"Y":[14]}},
"n0":{"hide_name":1,"type":"$_NOT_","parameters":{},"attributes":{"src":"counter.v:7.3-12.6"},
"port_directions":{"A":"input","Y":"output"},"connections":{"A":[5],"Y":[9]}},
"x1":{"hide_name":1,"type":"$_XOR_","parameters":{},"attributes":{"src":"counter.v:7.3-12.6"},
"port_directions":{"A":"input","B":"input","Y":"output"},"connections":{"A":[5],"B":[6],"Y":[10]}},
"x2":{"hide_name":1,"type":"$_XOR_","parameters":{},"attributes":{"src":"counter.v:7.3-12.6"},
"port_directions":{"A":"input","B":"input","Y":"output"},"connections":{"A":[7],"B":[13],"Y":[11]}},
"x3":{"hide_name":1,"type":"$_XOR_","parameters":{},"attributes":{"src":"counter.v:7.3-12.6"},
"port_directions":{"A":"input","B":"input","Y":"output"},"connections":{"A":[8],"B":[14],"Y":[12]}},
"f0":{"hide_name":1,"type":"$_SDFFE_PP0P_","parameters":{},"attributes":{"src":"counter.v:7.3-12.6"},
"port_directions":{"C":"input","D":"input","E":"input","Q":"output","R":"input"},"connections":{"C":[2],"D":[9],"E":[4],"Q":[5],"R":[3]}},
"f1":{"hide_name":1,"type":"$_SDFFE_PP0P_","parameters":{},"attributes":{"src":"counter.v:7.3-12.6"},
"port_directions":{"C":"input","D":"input","E":"input","Q":"output","R":"input"},"connections":{"C":[2],"D":[10],"E":[4],"Q":[6],"R":[3]}},
"f2":{"hide_name":1,"type":"$_SDFFE_PP0P_","parameters":{},"attributes":{"src":"counter.v:7.3-12.6"},
"port_directions":{"C":"input","D":"input","E":"input","Q":"output","R":"input"},"connections":{"C":[2],"D":[11],"E":[4],"Q":[7],"R":[3]}},
"f3":{"hide_name":1,"type":"$_SDFFE_PP0P_","parameters":{},"attributes":{"src":"counter.v:7.3-12.6"},
"port_directions":{"C":"input","D":"input","E":"input","Q":"output","R":"input"},"connections":{"C":[2],"D":[12],"E":[4],"Q":[8],"R":[3]}}},
"netnames":{"clk":{"hide_name":0,"bits":[2],"attributes":{"src":"counter.v:2.17-2.20"}},
"rst":{"hide_name":0,"bits":[3],"attributes":{"src":"counter.v:2.22-2.25"}},
"en":{"hide_name":0,"bits":[4],"attributes":{"src":"counter.v:2.27-2.29"}},
"q":{"hide_name":0,"bits":[5,6,7,8],"attributes":{"init":"0xx0","src":"counter.v:3.22-3.23"}},
"$add$counter.v:10$2_Y":{"hide_name":1,"bits":[9,10,11,12],"attributes":{"src":"counter.v:10.10-10.15"}},
"unused":{"hide_name":0,"bits":[15,16,"x","x"],"attributes":{"unused_bits":"0 1","src":"counter.v:5.8-5.14"}}}}}}"#;

/// Four words of two bits, with an unclocked read and a write at one address. Word 1 starts as 10, its bit 1 being 1.
pub(crate) const MEMORY: &str = r#"{"modules":{"top":{
"ports":{"clk":{"direction":"input","bits":[2]},"a":{"direction":"input","bits":[3,4]},"d":{"direction":"input","bits":[5,6]},
"w":{"direction":"input","bits":[7]},"q":{"direction":"output","bits":[8,9]}},
"cells":{"m":{"type":"$mem_v2","parameters":{"SIZE":4,"ABITS":2,"WIDTH":2,"INIT":"00001000","RD_PORTS":1,"WR_PORTS":1,
"RD_CLK_ENABLE":"0","WR_CLK_ENABLE":"1","WR_CLK_POLARITY":"1"},"connections":{
"RD_CLK":["x"],"RD_EN":["1"],"RD_ARST":["0"],"RD_SRST":["0"],"RD_ADDR":[3,4],"RD_DATA":[8,9],
"WR_CLK":[2],"WR_EN":[7,7],"WR_ADDR":[3,4],"WR_DATA":[5,6]}}}}}}"#;

/// Three words of two bits with two address bits, a clocked read, and a write of 01 at the same address.
pub(crate) const CLOCKED_READ: &str = r#"{"modules":{"top":{
"ports":{"clk":{"direction":"input","bits":[2]},"a":{"direction":"input","bits":[3,4]},"en":{"direction":"input","bits":[5]},
"rst":{"direction":"input","bits":[6]},"w":{"direction":"input","bits":[7]},"q":{"direction":"output","bits":[8,9]}},
"cells":{"m":{"type":"$mem_v2","parameters":{"SIZE":3,"ABITS":2,"WIDTH":2,"INIT":"110110","RD_PORTS":1,"WR_PORTS":1,
"RD_CLK_ENABLE":"1","RD_CLK_POLARITY":"1","RD_INIT_VALUE":"01","RD_SRST_VALUE":"10","RD_CE_OVER_SRST":"0",
"WR_CLK_ENABLE":"1","WR_CLK_POLARITY":"1"},"connections":{
"RD_CLK":[2],"RD_EN":[5],"RD_ARST":["0"],"RD_SRST":[6],"RD_ADDR":[3,4],"RD_DATA":[8,9],
"WR_CLK":[2],"WR_EN":[7,7],"WR_ADDR":[3,4],"WR_DATA":["0","1"]}}}}}}"#;

/// A register of the or of itself and the input, shown beside constants and a bit that nothing drives.
pub(crate) const STICKY: &str = r#"{"modules":{"top":{
"ports":{"clk":{"direction":"input","bits":[2]},"a":{"direction":"input","bits":[3]},
"y":{"direction":"output","bits":[4,"1","x",9]}},
"cells":{"g":{"type":"$_OR_","connections":{"A":[3],"B":[4],"Y":[5]}},
"r":{"type":"$_DFF_N_","connections":{"C":[2],"D":[5],"Q":[4]}}}}}}"#;
