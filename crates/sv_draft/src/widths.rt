//! The widths of operands, and whether they go together.
ghost use Rattle.std.specs.Prelude.{◌≡◌, map, slice_index};
ghost use Rattle.sv_tree.specs.declared.tree.SvNet.{SvNet};
ghost use Rattle.sv_tree.specs.declared.tree.SvPort.{SvPort};
ghost use Rattle.sv_tree.specs.declared.tree.SvReg.{SvReg};
ghost use Rattle.sv_tree.specs.WellFormed.{bin_widths_fit, operand_width, ref_width, slice_widths_fit};
ghost use Rattle.sv_lines.specs.Operands.{widths_fit};
ghost use Rattle.sv_draft.specs.OfWidth.{last_of_width};
ghost use Rattle.sv_draft.specs.SeenDraft.{draft_of};

use crate::draft::Draft;
use crate::operands::last_operand;
use core_term::BinOp;
use std::alloc::Global;
use sv_tree::{SvNet, SvOp, SvOperand, SvPort, SvRef, SvReg};

#[tactic(auto, using(sv_lines::proofs::read::WidthsAt::width_at, sv_lines::proofs::read::WidthsAt::no_width_at))]
fn port_width(ports: &[SvPort], index: usize) -> u8
    ensures { result ≡ slice_index (map (λ (port : SvPort). port.width) ports.now) index }
{
    if index < ports.len() {
        ports[index].width
    } else {
        0
    }
}

#[tactic(auto, using(sv_lines::proofs::read::WidthsAt::width_at, sv_lines::proofs::read::WidthsAt::no_width_at))]
fn register_width(regs: &[SvReg], index: usize) -> u8
    ensures { result ≡ slice_index (map (λ (reg : SvReg). reg.width) regs.now) index }
{
    if index < regs.len() {
        regs[index].width
    } else {
        0
    }
}

#[tactic(auto, using(sv_lines::proofs::read::WidthsAt::width_at, sv_lines::proofs::read::WidthsAt::no_width_at))]
fn net_width(nets: &[SvNet], index: usize) -> u8
    ensures { result ≡ slice_index (map (λ (net : SvNet). net.width) nets.now) index }
{
    if index < nets.len() {
        nets[index].width
    } else {
        0
    }
}

fn ref_width(draft: &Draft, of: SvRef) -> u8
    ensures { result ≡ ref_width (draft_of draft.now) of }
{
    match of {
        SvRef::Data(index) => port_width(draft.ports.ports(), index as usize),
        SvRef::Valid(_) => 1,
        SvRef::Ack(_) => 1,
        SvRef::Reg(index) => register_width(draft.regs.regs(), index as usize),
        SvRef::Net(index) => net_width(draft.nets.nets(), index as usize),
    }
}

/// The width of an operand that stands in the module.
pub fn operand_width(draft: &Draft, operand: &SvOperand) -> u8
    ensures { result ≡ operand_width (draft_of draft.now) operand.now }
{
    match operand {
        SvOperand::Ref(of) => ref_width(draft, *of),
        SvOperand::Lit(number) => number.width(),
    }
}

fn bin_widths_fit(op: BinOp, width: u8, first: u8, second: u8) -> bool
    ensures { result ≡ bin_widths_fit op width first second }
{
    match op {
        BinOp::Add | BinOp::Sub | BinOp::Mul | BinOp::And | BinOp::Or | BinOp::Xor => {
            first == width && second == width
        }
        BinOp::Eq | BinOp::Ne | BinOp::Lt | BinOp::Le | BinOp::Gt | BinOp::Ge => {
            first == second && width == 1
        }
        BinOp::Shl | BinOp::Shr => first == width,
        BinOp::Cat => first as u16 + second as u16 == width as u16,
    }
}

fn slice_widths_fit(high: u8, low: u8, width: u8, of: u8) -> bool
    ensures { result ≡ slice_widths_fit high low width of }
{
    low <= high && high < of && width as u16 + low as u16 == high as u16 + 1
}

/// Whether the operands have the widths that a net of `width` bits wants.
pub fn widths_fit(draft: &Draft, width: u8, op: &SvOp) -> bool
    ensures { result ≡ widths_fit (draft_of draft.now) width op.now }
{
    match op {
        SvOp::Not(operand) => operand_width(draft, operand) == width,
        SvOp::Bin(op, first, second) => {
            let first = operand_width(draft, first);
            let second = operand_width(draft, second);
            bin_widths_fit(*op, width, first, second)
        }
        SvOp::Slice { of, high, low } => {
            let of = ref_width(draft, *of);
            slice_widths_fit(*high, *low, width, of)
        }
        SvOp::Choose(condition, first, second) => {
            operand_width(draft, condition) == 1
                && operand_width(draft, first) == width
                && operand_width(draft, second) == width
        }
    }
}

/// A whole operand of this width, and the end of the line.
pub fn last_of_width(alloc: Global, draft: &Draft, width: u8, text: &[u8]) -> Option<SvOperand>
    ensures { result ≡ last_of_width (draft_of draft.now) width text.now }
{
    let Some(operand) = last_operand(alloc, draft, text) else {
        return None;
    };
    if operand_width(draft, &operand) == width {
        Some(operand)
    } else {
        None
    }
}
