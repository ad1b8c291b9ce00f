//! Sources, texts of modules and stimuli that several calls take.

/// A register that is set in one cycle, and a wait of two.
pub const COUNTER: &[u8] = b"proc c() { reg a : logic[8]; loop { set a := *a + 8'd1 >> cycle 2 } }";

/// Answers each request with its own data.
pub const ECHO: &[u8] =
    b"chan ch { left req : (logic[8]@res), right res : (logic[8]@#1) }\nproc e(p : left ch) { loop { let x = recv p.req >> send p.res(x) >> cycle 1 } }\n";

/// A request and its answer.
pub const ROWS: &[u8] = b"0:0 0\n1:7 0\n0:7 1\n0:0 0\n";

/// The same, but the data of the request change before the answer.
pub const BROKEN: &[u8] = b"0:0 0\n1:7 0\n0:9 1\n0:0 0\n";

/// What an echo shows on `ROWS`.
pub const ECHO_LOG: &[u8] =
    b"p.req=v0a1d0 p.res=v0a0d-\np.req=v1a1d7 p.res=v1a0d7\np.req=v0a0d7 p.res=v1a1d7\np.req=v0a1d0 p.res=v0a0d-\n";

/// The lines of `ECHO_LOG` before cycle 2.
pub const ECHO_FRONT: &[u8] = b"p.req=v0a1d0 p.res=v0a0d-\np.req=v1a1d7 p.res=v1a0d7\n";

/// Breaks a timing rule.
pub const TWO_SETS: &[u8] =
    b"proc t() { reg a : logic[8]; loop { set a := 8'd1 ; set a := 8'd2 } }";

/// A module of the counter, written by hand.
pub const MODULE: &[u8] =
    b"module anvil__c (\n  input logic clk_i,\n  input logic rst_ni\n);\n  logic [7:0] a__q;\n  logic [0:0] s__0;\n  logic [0:0] s__1;\n  logic [1:0] s__2;\n  logic [0:0] n__0;\n  assign n__0 = s__2 == 2'd1;\n  logic [0:0] n__1;\n  assign n__1 = ~s__0;\n  logic [0:0] n__2;\n  assign n__2 = n__0 | n__1;\n  logic [7:0] n__3;\n  assign n__3 = a__q + 8'd1;\n  logic [7:0] n__4;\n  assign n__4 = n__2 ? n__3 : a__q;\n  logic [0:0] n__5;\n  assign n__5 = s__2 != 2'd0;\n  logic [1:0] n__6;\n  assign n__6 = s__2 - 2'd1;\n  logic [1:0] n__7;\n  assign n__7 = n__5 ? n__6 : 2'd0;\n  logic [1:0] n__8;\n  assign n__8 = s__1 ? 2'd2 : n__7;\n  always_ff @(posedge clk_i) begin\n    if (!rst_ni) begin\n      a__q <= 8'd0;\n      s__0 <= 1'd0;\n      s__1 <= 1'd0;\n      s__2 <= 2'd0;\n    end else begin\n      a__q <= n__4;\n      s__0 <= 1'd1;\n      s__1 <= n__2;\n      s__2 <= n__8;\n    end\n  end\nendmodule\n";

/// A module with the ports of an echo, written by hand, which takes each request and answers none.
pub const TAKER: &[u8] = b"module anvil__e (
  input logic clk_i,
  input logic rst_ni,
  input logic [7:0] p__req__data,
  input logic [0:0] p__req__valid,
  output logic [0:0] p__req__ack,
  output logic [7:0] p__res__data,
  output logic [0:0] p__res__valid,
  input logic [0:0] p__res__ack
);
  assign p__req__ack = 1'd1;
  assign p__res__data = p__req__data;
  assign p__res__valid = 1'd0;
endmodule
";

/// The lines that it shows on `BROKEN` before cycle 2, in which the data of the request that it took in cycle 1 change.
pub const TAKER_FRONT: &[u8] = b"p.req=v0a1d0 p.res=v0a0d-\np.req=v1a1d7 p.res=v0a0d-\n";

/// The line of words that have no form.
pub const USAGE: &[u8] =
    b"usage: anvil check FILE | compile FILE | run FILE PROC STIM | runsv FILE SV PROC STIM | gen NUMBER\n";
