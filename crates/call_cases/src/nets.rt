//! A net is drawn, and the module is finished.
use crate::answers::boxed;
use anvil_bits::Bits;
use anvil_lexer::Name;
use core_term::{BinOp, CoreExpr};
use module_nets::{Netlist, Scope, draw_expression};
use std::alloc::Global;

// How wide `8'd5 + 8'd1` is, drawn into a module without ports and registers, and how many nets the module has then.
fn drawn_sum(alloc: Global) -> Option<(u8, usize)> {
    let five = boxed(alloc, CoreExpr::Lit(Bits::new(8, 5)));
    let one = boxed(alloc, CoreExpr::Lit(Bits::new(8, 1)));
    match (five, one) {
        (Ok(five), Ok(one)) => {
            let mut netlist = Netlist::new(alloc, Vec::new(alloc), Vec::new(alloc));
            let scope = Scope {
                registers: &[],
                ports: &[],
                sides: &[],
                variables: &[],
            };
            let sum = CoreExpr::Bin(BinOp::Add, five, one);
            let drawn = draw_expression(&mut netlist, &scope, &sum);
            drop(sum);
            match drawn {
                Ok(signal) => {
                    let module = netlist.finish(
                        Name::of(alloc, b"p"),
                        Vec::new(alloc),
                        Vec::new(alloc),
                    );
                    let count = module.nets().len();
                    drop(module);
                    Some((signal.width, count))
                }
                Err(_) => {
                    drop(netlist);
                    None
                }
            }
        }
        (five, one) => {
            drop(five);
            drop(one);
            None
        }
    }
}

#[test]
fn a_sum_is_one_net(rt: HostRuntime) {
    assert_eq!(rt; drawn_sum(rt.alloc()), Some((8, 1)));
}
