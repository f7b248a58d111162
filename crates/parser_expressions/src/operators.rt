//! The operators of expressions (ISO/IEC 9899:2011 6.5).

ghost use Rattle.std.specs.Prelude.{◌≡◌, ℕ, ◌≤◌, ◌↔◌, IsTrue, MatchOption};
ghost use Rattle.lexer.specs.declared.token.Kind.TheVariants as kind;
ghost use Rattle.lexer.specs.declared.token.Punctuator.TheVariants as sign;
ghost use Rattle.tree.specs.View.{tree_of};
ghost use Rattle.tree.specs.declared.expression.BinaryOp.{BinaryOp};
ghost use Rattle.tree.specs.declared.expression.PrefixOp.{PrefixOp};
ghost use Rattle.tree.specs.declared.expression.StepOp.{StepOp};
ghost use Rattle.tree.specs.declared.expression.AssignOp.{AssignOp};
ghost use Rattle.parser_grammar.specs.Tokens.{Own, NotFront};
ghost use Rattle.parser_grammar.specs.Expressions.{layer, layer_of, binary_sign, prefix_sign, step_sign, assign_sign};

use crate::fronts::any_sign_front;
use lexer::{Punctuator, Token};
use srcset::Pos;
use tree::{AssignOp, BinaryOp, Expr, PrefixOp, StepOp};

fn binary_operator(sign: Punctuator) -> Option<BinaryOp>
    ensures { MatchOption result ((op : BinaryOp) → sign ≡ binary_sign op → ⊥) (λ op. sign ≡ binary_sign op) }
{
    match sign {
        Punctuator::Star => Some(BinaryOp::Mul),
        Punctuator::Slash => Some(BinaryOp::Div),
        Punctuator::Percent => Some(BinaryOp::Rem),
        Punctuator::Plus => Some(BinaryOp::Add),
        Punctuator::Minus => Some(BinaryOp::Sub),
        Punctuator::ShiftLeft => Some(BinaryOp::ShiftLeft),
        Punctuator::ShiftRight => Some(BinaryOp::ShiftRight),
        Punctuator::Less => Some(BinaryOp::Less),
        Punctuator::Greater => Some(BinaryOp::Greater),
        Punctuator::LessEqual => Some(BinaryOp::LessEqual),
        Punctuator::GreaterEqual => Some(BinaryOp::GreaterEqual),
        Punctuator::EqualEqual => Some(BinaryOp::Equal),
        Punctuator::BangEqual => Some(BinaryOp::NotEqual),
        Punctuator::Ampersand => Some(BinaryOp::BitAnd),
        Punctuator::Caret => Some(BinaryOp::BitXor),
        Punctuator::Bar => Some(BinaryOp::BitOr),
        Punctuator::AndAnd => Some(BinaryOp::And),
        Punctuator::BarBar => Some(BinaryOp::Or),
        Punctuator::Comma => Some(BinaryOp::Comma),
        _ => None,
    }
}

fn prefix_operator(sign: Punctuator) -> Option<PrefixOp>
    ensures { MatchOption result ((op : PrefixOp) → sign ≡ prefix_sign op → ⊥) (λ op. sign ≡ prefix_sign op) }
{
    match sign {
        Punctuator::Plus => Some(PrefixOp::Plus),
        Punctuator::Minus => Some(PrefixOp::Minus),
        Punctuator::Tilde => Some(PrefixOp::Complement),
        Punctuator::Bang => Some(PrefixOp::Not),
        _ => None,
    }
}

fn step_operator(sign: Punctuator) -> Option<StepOp>
    ensures { MatchOption result ((op : StepOp) → sign ≡ step_sign op → ⊥) (λ op. sign ≡ step_sign op) }
{
    match sign {
        Punctuator::PlusPlus => Some(StepOp::Increment),
        Punctuator::MinusMinus => Some(StepOp::Decrement),
        _ => None,
    }
}

fn assign_operator(sign: Punctuator) -> Option<AssignOp>
    ensures { MatchOption result ((op : AssignOp) → sign ≡ assign_sign op → ⊥) (λ op. sign ≡ assign_sign op) }
{
    match sign {
        Punctuator::Assign => Some(AssignOp::Plain),
        Punctuator::StarAssign => Some(AssignOp::Mul),
        Punctuator::SlashAssign => Some(AssignOp::Div),
        Punctuator::PercentAssign => Some(AssignOp::Rem),
        Punctuator::PlusAssign => Some(AssignOp::Add),
        Punctuator::MinusAssign => Some(AssignOp::Sub),
        Punctuator::ShiftLeftAssign => Some(AssignOp::ShiftLeft),
        Punctuator::ShiftRightAssign => Some(AssignOp::ShiftRight),
        Punctuator::AmpersandAssign => Some(AssignOp::BitAnd),
        Punctuator::CaretAssign => Some(AssignOp::BitXor),
        Punctuator::BarAssign => Some(AssignOp::BitOr),
        _ => None,
    }
}

/// The layer of the grammar that an operator makes: 12 for the tightest, 0 for the comma.
pub(crate) fn layer_number(op: BinaryOp) -> u32
    ensures { result ≡ layer_of op }
{
    match op {
        BinaryOp::Mul | BinaryOp::Div | BinaryOp::Rem => 12,
        BinaryOp::Add | BinaryOp::Sub => 11,
        BinaryOp::ShiftLeft | BinaryOp::ShiftRight => 10,
        BinaryOp::Less | BinaryOp::Greater | BinaryOp::LessEqual | BinaryOp::GreaterEqual => 9,
        BinaryOp::Equal | BinaryOp::NotEqual => 8,
        BinaryOp::BitAnd => 7,
        BinaryOp::BitXor => 6,
        BinaryOp::BitOr => 5,
        BinaryOp::And => 4,
        BinaryOp::Or => 3,
        BinaryOp::Comma => 0,
    }
}

/// The operator between two operands at the front, of a layer from `min` up, and the remaining tokens.
pub(crate) fn binary_front<'t>(
    tokens: &'t [Token],
    min: u32,
) -> Option<(Pos, BinaryOp, &'t [Token])>
    ensures { MatchOption result ((op : BinaryOp) → min ≤ layer_of op → NotFront (kind.Punctuator (binary_sign op)) tokens.now)
        (λ p. Own (kind.Punctuator (binary_sign p.1)) p.0 tokens.now p.2.now × (min ≤ layer_of p.1)) }
{
    let (pos, sign, rest) = any_sign_front(tokens)?;
    let op = binary_operator(sign)?;
    if layer_number(op) >= min {
        return Some((pos, op, rest));
    }
    None
}

/// The sign before an operand at the front, and the remaining tokens.
pub(crate) fn prefix_front<'t>(tokens: &'t [Token]) -> Option<(Pos, PrefixOp, &'t [Token])>
    ensures { MatchOption result ((op : PrefixOp) → NotFront (kind.Punctuator (prefix_sign op)) tokens.now)
        (λ p. Own (kind.Punctuator (prefix_sign p.1)) p.0 tokens.now p.2.now) }
{
    let (pos, sign, rest) = any_sign_front(tokens)?;
    let op = prefix_operator(sign)?;
    Some((pos, op, rest))
}

/// The `++` or `--` at the front, and the remaining tokens.
pub(crate) fn step_front<'t>(tokens: &'t [Token]) -> Option<(Pos, StepOp, &'t [Token])>
    ensures { MatchOption result ((op : StepOp) → NotFront (kind.Punctuator (step_sign op)) tokens.now)
        (λ p. Own (kind.Punctuator (step_sign p.1)) p.0 tokens.now p.2.now) }
{
    let (pos, sign, rest) = any_sign_front(tokens)?;
    let op = step_operator(sign)?;
    Some((pos, op, rest))
}

/// The operator of an assignment at the front, and the remaining tokens.
pub(crate) fn assign_front<'t>(tokens: &'t [Token]) -> Option<(Pos, AssignOp, &'t [Token])>
    ensures { MatchOption result ((op : AssignOp) → NotFront (kind.Punctuator (assign_sign op)) tokens.now)
        (λ p. Own (kind.Punctuator (assign_sign p.1)) p.0 tokens.now p.2.now) }
{
    let (pos, sign, rest) = any_sign_front(tokens)?;
    let op = assign_operator(sign)?;
    Some((pos, op, rest))
}

/// Whether an expression may be the left operand of an assignment (6.5.16): whether it is a unary one.
pub(crate) fn is_unary(expr: &Expr) -> bool
    ensures { IsTrue result ↔ (14 ≤ layer (tree_of expr.now)) }
{
    match expr {
        Expr::Cast(_, _, _)
        | Expr::Binary(_, _, _, _)
        | Expr::Conditional(_, _, _, _)
        | Expr::Assign(_, _, _, _) => false,
        _ => true,
    }
}
