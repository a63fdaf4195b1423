// Netlists of whole cores, as documents.

/// A register that feeds itself, with the start 1.
pub(crate) const FED_BY_ITSELF: &str = concat!(
    r#"{"creator":"Yosys","modules":{"top":{"attributes":{},"ports":{"clk":{"direction":"input","bits":[2]}"#,
    r#","y":{"direction":"output","bits":[3]}},"cells":{"r":{"type":"$_DFF_P_","parameters":{},"attributes""#,
    r#":{},"connections":{"C":[2],"D":[3],"Q":[3]}}},"netnames":{"start0":{"bits":[3],"attributes":{"init":"#,
    r#""1"}}}}}}"#,
);

/// A register behind the constant 1, with the start 0.
pub(crate) const BEHIND_A_CONSTANT: &str = concat!(
    r#"{"creator":"Yosys","modules":{"top":{"attributes":{},"ports":{"clk":{"direction":"input","bits":[2]}"#,
    r#","y":{"direction":"output","bits":[3]}},"cells":{"r":{"type":"$_DFF_P_","parameters":{},"attributes""#,
    r#":{},"connections":{"C":[2],"D":["1"],"Q":[3]}}},"netnames":{"start0":{"bits":[3],"attributes":{"init"#,
    r#"":"0"}}}}}}"#,
);

/// A memory of three words behind two address bits.
pub(crate) const THREE_WORDS: &str = concat!(
    r#"{"creator":"Yosys","modules":{"top":{"attributes":{},"ports":{"clk":{"direction":"input","bits":[2]}"#,
    r#","a":{"direction":"input","bits":[3,4]},"d":{"direction":"input","bits":[5,6]},"w":{"direction":"inp"#,
    r#"ut","bits":[7]},"q":{"direction":"output","bits":[8,9]}},"cells":{"m":{"type":"$mem_v2","parameters""#,
    r#":{"MEMID":"\\m","SIZE":"00000000000000000000000000000011","OFFSET":"00000000000000000000000000000000"#,
    r#"","ABITS":"00000000000000000000000000000010","WIDTH":"00000000000000000000000000000010","RD_PORTS":""#,
    r#"00000000000000000000000000000001","WR_PORTS":"00000000000000000000000000000001","INIT":"001000","RD_"#,
    r#"CLK_ENABLE":"0","WR_CLK_ENABLE":"1","WR_CLK_POLARITY":"1"},"attributes":{},"connections":{"RD_CLK":["#,
    r#""x"],"RD_EN":["1"],"RD_ARST":["0"],"RD_SRST":["0"],"RD_ADDR":[3,4],"RD_DATA":[8,9],"WR_CLK":[2],"WR_"#,
    r#"EN":[7,7],"WR_ADDR":[3,4],"WR_DATA":[5,6]}}},"netnames":{}}}}"#,
);

/// A memory that is read alone, without a clock.
pub(crate) const NO_CLOCK: &str = concat!(
    r#"{"creator":"Yosys","modules":{"top":{"attributes":{},"ports":{"a":{"direction":"input","bits":[2]},""#,
    r#"q":{"direction":"output","bits":[3]}},"cells":{"m":{"type":"$mem_v2","parameters":{"MEMID":"\\m","SI"#,
    r#"ZE":"00000000000000000000000000000010","OFFSET":"00000000000000000000000000000000","ABITS":"00000000"#,
    r#"000000000000000000000001","WIDTH":"00000000000000000000000000000001","RD_PORTS":"0000000000000000000"#,
    r#"0000000000001","WR_PORTS":"00000000000000000000000000000000","INIT":"10","RD_CLK_ENABLE":"0","WR_CLK"#,
    r#"_ENABLE":"0","WR_CLK_POLARITY":"0"},"attributes":{},"connections":{"RD_CLK":["x"],"RD_EN":["1"],"RD_"#,
    r#"ARST":["0"],"RD_SRST":["0"],"RD_ADDR":[2],"RD_DATA":[3],"WR_CLK":[],"WR_EN":[],"WR_ADDR":[],"WR_DATA"#,
    r#"":[]}}},"netnames":{}}}}"#,
);

/// A counter of four bits with enable and reset, as Yosys writes it.
pub(crate) const COUNTER: &str = concat!(
    r#"{"creator":"Yosys 0.38 (git sha1 000000000, gcc 12.2.0 -fPIC -Os)","modules":{"counter":{"attributes"#,
    r#"":{"cells_not_processed":"00000000000000000000000000000001","src":"counter.v:1.1-14.10","top":"00000"#,
    r#"000000000000000000000000001"},"ports":{"clk":{"direction":"input","bits":[2]},"rst":{"direction":"in"#,
    r#"put","bits":[3]},"en":{"direction":"input","bits":[4]},"q":{"direction":"output","bits":[5,6,7,8]}},"#,
    r#""cells":{"a1":{"hide_name":1,"type":"$_AND_","parameters":{},"attributes":{"src":"counter.v:7.3-12.6"#,
    r#""},"port_directions":{"A":"input","B":"input","Y":"output"},"connections":{"A":[5],"B":[6],"Y":[13]}"#,
    r#"},"a2":{"hide_name":1,"type":"$_AND_","parameters":{},"attributes":{"src":"counter.v:7.3-12.6"},"por"#,
    r#"t_directions":{"A":"input","B":"input","Y":"output"},"connections":{"A":[7],"B":[13],"Y":[14]}},"n0""#,
    r#":{"hide_name":1,"type":"$_NOT_","parameters":{},"attributes":{"src":"counter.v:7.3-12.6"},"port_dire"#,
    r#"ctions":{"A":"input","Y":"output"},"connections":{"A":[5],"Y":[9]}},"x1":{"hide_name":1,"type":"$_XO"#,
    r#"R_","parameters":{},"attributes":{"src":"counter.v:7.3-12.6"},"port_directions":{"A":"input","B":"in"#,
    r#"put","Y":"output"},"connections":{"A":[5],"B":[6],"Y":[10]}},"x2":{"hide_name":1,"type":"$_XOR_","pa"#,
    r#"rameters":{},"attributes":{"src":"counter.v:7.3-12.6"},"port_directions":{"A":"input","B":"input","Y"#,
    r#"":"output"},"connections":{"A":[7],"B":[13],"Y":[11]}},"x3":{"hide_name":1,"type":"$_XOR_","paramete"#,
    r#"rs":{},"attributes":{"src":"counter.v:7.3-12.6"},"port_directions":{"A":"input","B":"input","Y":"out"#,
    r#"put"},"connections":{"A":[8],"B":[14],"Y":[12]}},"f0":{"hide_name":1,"type":"$_SDFFE_PP0P_","paramet"#,
    r#"ers":{},"attributes":{"src":"counter.v:7.3-12.6"},"port_directions":{"C":"input","D":"input","E":"in"#,
    r#"put","Q":"output","R":"input"},"connections":{"C":[2],"D":[9],"E":[4],"Q":[5],"R":[3]}},"f1":{"hide_"#,
    r#"name":1,"type":"$_SDFFE_PP0P_","parameters":{},"attributes":{"src":"counter.v:7.3-12.6"},"port_direc"#,
    r#"tions":{"C":"input","D":"input","E":"input","Q":"output","R":"input"},"connections":{"C":[2],"D":[10"#,
    r#"],"E":[4],"Q":[6],"R":[3]}},"f2":{"hide_name":1,"type":"$_SDFFE_PP0P_","parameters":{},"attributes":"#,
    r#"{"src":"counter.v:7.3-12.6"},"port_directions":{"C":"input","D":"input","E":"input","Q":"output","R""#,
    r#":"input"},"connections":{"C":[2],"D":[11],"E":[4],"Q":[7],"R":[3]}},"f3":{"hide_name":1,"type":"$_SD"#,
    r#"FFE_PP0P_","parameters":{},"attributes":{"src":"counter.v:7.3-12.6"},"port_directions":{"C":"input","#,
    r#""D":"input","E":"input","Q":"output","R":"input"},"connections":{"C":[2],"D":[12],"E":[4],"Q":[8],"R"#,
    r#"":[3]}}},"netnames":{"clk":{"hide_name":0,"bits":[2],"attributes":{"src":"counter.v:2.17-2.20"}},"rs"#,
    r#"t":{"hide_name":0,"bits":[3],"attributes":{"src":"counter.v:2.22-2.25"}},"en":{"hide_name":0,"bits":"#,
    r#"[4],"attributes":{"src":"counter.v:2.27-2.29"}},"q":{"hide_name":0,"bits":[5,6,7,8],"attributes":{"i"#,
    r#"nit":"0xx0","src":"counter.v:3.22-3.23"}},"$add$counter.v:10$2_Y":{"hide_name":1,"bits":[9,10,11,12]"#,
    r#","attributes":{"src":"counter.v:10.10-10.15"}},"unused":{"hide_name":0,"bits":[15,16,"x","x"],"attri"#,
    r#"butes":{"unused_bits":"0 1","src":"counter.v:5.8-5.14"}}}}}}"#,
);

/// An inverter, and a register that nothing reads.
pub(crate) const UNREAD: &str = r#"{"modules":{"top":{
"ports":{"clk":{"direction":"input","bits":[2]},"a":{"direction":"input","bits":[3]},"y":{"direction":"output","bits":[4]}},
"cells":{"g":{"type":"$_NOT_","connections":{"A":[3],"Y":[4]}},
"r":{"type":"$_DFF_P_","connections":{"C":[2],"D":[3],"Q":[5]}}}}}}"#;
