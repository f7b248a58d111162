//! When the port may flush.

ghost use Rattle.io_ports.specs.Port.{Flushes};

use interp_store::frames::Node;
use io_ports::Port;
use typed_ast::Statement;

/// The number of ticks after which the port may flush again.
pub const PERIOD: u64 = 1 << 22;

/// Lets the port flush if that is due after this many ticks, and returns when it is due next.
#[inline(always)]
pub fn rest_at<P: Port>(port: &mut P, spent: u64, due: u64) -> u64
    ensures { Flushes (P.seen port.old) (P.seen port.new) }
{
    if spent < due {
        return due;
    }
    port.rest();
    spent.saturating_add(PERIOD)
}

/// Lets the port flush before a part without calls that may take any number of ticks.
#[inline(always)]
pub fn rest_before<P: Port>(port: &mut P, node: &Node<'_>)
    ensures { Flushes (P.seen port.old) (P.seen port.new) }
{
    if is_long(node) {
        port.rest();
    }
}

/// Whether the node that takes the next tick may take any number of ticks without a call.
#[inline(always)]
fn is_long(node: &Node<'_>) -> bool {
    match node {
        Node::Value(_) => false,
        Node::Place(_) => false,
        Node::Statement(_, a) => holds_loop(a),
        Node::Initialiser(_, _, _, _) => false,
        Node::Element(_, _) => false,
        Node::Ticking(_, _) => false,
        Node::TickingLong(_, _) => false,
        Node::SwitchBlock(_, _) => false,
        Node::CaseTest(_) => false,
    }
}

/// Whether one of these statements contains a loop.
#[cycle(holding)]
fn hold_loop(all: &[Statement]) -> bool {
    for a in all {
        if holds_loop(a) {
            return true;
        }
    }
    false
}

/// Whether a statement contains a loop.
#[cycle(holding)]
pub fn holds_loop(a: &Statement) -> bool {
    match a {
        Statement::Empty(_) => false,
        Statement::Evaluate(_, _) => false,
        Statement::Declare(_, _) => false,
        Statement::Define(_, _, _) => false,
        Statement::Block(_, _, _, all) => hold_loop(all),
        Statement::If(_, _, a) => holds_loop(a),
        Statement::IfElse(_, _, a, b) => holds_loop(a) || holds_loop(b),
        Statement::Switch(_, _, _, _, _, all) => hold_loop(all),
        Statement::Case(_, _) => false,
        Statement::Default(_) => false,
        Statement::While(_, _, _) => true,
        Statement::DoWhile(_, _, _) => true,
        Statement::For(_, _, _, _) => true,
        Statement::Break(_) => false,
        Statement::Continue(_) => false,
        Statement::ReturnNothing(_) => false,
        Statement::ReturnValue(_, _, _) => false,
    }
}
