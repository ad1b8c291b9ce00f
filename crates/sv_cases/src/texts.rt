//! Texts of modules, written out by hand.

/// Adds 1 to a register in cycle 0.
pub const COUNTER: &str = "module anvil__c (
  input logic clk_i,
  input logic rst_ni
);
  logic [7:0] a__q;
  logic [0:0] s__0;
  logic [0:0] n__0;
  assign n__0 = ~s__0;
  logic [7:0] n__1;
  assign n__1 = a__q + 8'd1;
  logic [7:0] n__2;
  assign n__2 = n__0 ? n__1 : a__q;
  always_ff @(posedge clk_i) begin
    if (!rst_ni) begin
      a__q <= 8'd200;
      s__0 <= 1'd0;
    end else begin
      a__q <= n__2;
      s__0 <= 1'd1;
    end
  end
endmodule
";

/// Hands each byte on with its halves changed over.
pub const HALVES: &str = "module anvil__halves (
  input logic clk_i,
  input logic rst_ni,
  input logic [7:0] p__req__data,
  input logic [0:0] p__req__valid,
  output logic [0:0] p__req__ack,
  output logic [7:0] p__res__data,
  output logic [0:0] p__res__valid,
  input logic [0:0] p__res__ack
);
  logic [3:0] n__0;
  assign n__0 = p__req__data[3:0];
  logic [3:0] n__1;
  assign n__1 = p__req__data[7:4];
  logic [7:0] n__2;
  assign n__2 = {n__0, n__1};
  assign p__req__ack = p__res__ack;
  assign p__res__data = n__2;
  assign p__res__valid = p__req__valid;
endmodule
";

/// Adds 1 to a register in some cycles.
pub const SAMPLE: &str = "module anvil__c (
  input logic clk_i,
  input logic rst_ni
);
  logic [7:0] a__q;
  logic [0:0] s__0;
  logic [0:0] s__1;
  logic [1:0] s__2;
  logic [0:0] n__0;
  assign n__0 = s__2 == 2'd1;
  logic [0:0] n__1;
  assign n__1 = ~s__0;
  logic [0:0] n__2;
  assign n__2 = n__0 | n__1;
  logic [7:0] n__3;
  assign n__3 = a__q + 8'd1;
  logic [7:0] n__4;
  assign n__4 = n__2 ? n__3 : a__q;
  logic [0:0] n__5;
  assign n__5 = s__2 != 2'd0;
  logic [1:0] n__6;
  assign n__6 = s__2 - 2'd1;
  logic [1:0] n__7;
  assign n__7 = n__5 ? n__6 : 2'd0;
  logic [1:0] n__8;
  assign n__8 = s__1 ? 2'd2 : n__7;
  always_ff @(posedge clk_i) begin
    if (!rst_ni) begin
      a__q <= 8'd0;
      s__0 <= 1'd0;
      s__1 <= 1'd0;
      s__2 <= 2'd0;
    end else begin
      a__q <= n__4;
      s__0 <= 1'd1;
      s__1 <= n__2;
      s__2 <= n__8;
    end
  end
endmodule
";

/// Each operator once, at the widths 1, 63 and 64.
pub const OPERATORS: &str = "module anvil__o (
  input logic clk_i,
  input logic rst_ni
);
  logic [63:0] x__q;
  logic [62:0] y__q;
  logic [0:0] z__q;
  logic [63:0] n__0;
  assign n__0 = x__q + 64'd18446744073709551615;
  logic [63:0] n__1;
  assign n__1 = x__q - n__0;
  logic [63:0] n__2;
  assign n__2 = x__q * x__q;
  logic [62:0] n__3;
  assign n__3 = ~y__q;
  logic [62:0] n__4;
  assign n__4 = y__q & n__3;
  logic [0:0] n__5;
  assign n__5 = z__q | 1'd1;
  logic [0:0] n__6;
  assign n__6 = z__q ^ n__5;
  logic [0:0] n__7;
  assign n__7 = x__q == n__1;
  logic [0:0] n__8;
  assign n__8 = y__q != 63'd0;
  logic [0:0] n__9;
  assign n__9 = z__q < n__6;
  logic [0:0] n__10;
  assign n__10 = x__q <= n__1;
  logic [0:0] n__11;
  assign n__11 = x__q > n__1;
  logic [0:0] n__12;
  assign n__12 = x__q >= n__1;
  logic [63:0] n__13;
  assign n__13 = x__q << z__q;
  logic [62:0] n__14;
  assign n__14 = y__q >> x__q;
  logic [0:0] n__15;
  assign n__15 = y__q[62:62];
  logic [63:0] n__16;
  assign n__16 = {n__15, y__q};
  logic [63:0] n__17;
  assign n__17 = n__12 ? n__16 : n__2;
  always_ff @(posedge clk_i) begin
    if (!rst_ni) begin
      x__q <= 64'd0;
      y__q <= 63'd9223372036854775807;
      z__q <= 1'd1;
    end else begin
      x__q <= n__17;
      y__q <= n__14;
      z__q <= n__11;
    end
  end
endmodule
";

/// Two modules without registers.
pub const TWO: &str = "module anvil__a (
  input logic clk_i,
  input logic rst_ni
);
endmodule
module anvil__b (
  input logic clk_i,
  input logic rst_ni
);
endmodule
";

/// Two modules of one name.
pub const TWICE: &str = "module anvil__a (
  input logic clk_i,
  input logic rst_ni
);
endmodule
module anvil__a (
  input logic clk_i,
  input logic rst_ni
);
endmodule
";

/// A literal of 8 bits with the value 2^8, in the first reset.
pub const WIDE_LITERAL: &str = "module anvil__a (
  input logic clk_i,
  input logic rst_ni
);
  logic [7:0] a__q;
  always_ff @(posedge clk_i) begin
    if (!rst_ni) begin
      a__q <= 8'd256;
";

/// An operand of 7 bits beside one of 8.
pub const OTHER_WIDTH: &str = "module anvil__a (
  input logic clk_i,
  input logic rst_ni
);
  logic [7:0] a__q;
  logic [7:0] n__0;
  assign n__0 = a__q + 7'd1;
";
