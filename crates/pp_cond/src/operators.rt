//! The operators of conditions (ISO/IEC 9899:2011 6.5.3.3, 6.5.5 to 6.5.15).
ghost use Rattle.std.specs.Prelude.{◌≡◌, codes};
ghost use Rattle.std.specs.Map.{lookup};
ghost use Rattle.std.specs.Str.{bytes_eq};
ghost use Rattle.pp_cond.specs.Condition.{prefixes};
ghost use Rattle.pp_cond.specs.inside.Roles.{bitwise_role, comparison_role, arithmetic_role, role_of, bound_of};

use ctypes::BinOp;

/// An operator of one operand (6.5.3.3).
#[derive(Clone, Copy, PartialEq, Eq, Debug)]
pub enum PrefixOperator {
    /// `+`
    Plus,
    /// `-`
    Minus,
    /// `~`
    Complement,
    /// `!`
    Negation,
}

/// An operator of two operands.
#[derive(Clone, Copy, PartialEq, Eq, Debug)]
pub enum Operator {
    /// `||` (6.5.14)
    OrElse,
    /// `&&` (6.5.13)
    AndThen,
    /// One that evaluates both (6.5.5 to 6.5.12).
    Two(BinOp),
}

/// The role of a token after an operand.
#[derive(Clone, Copy, PartialEq, Eq, Debug)]
pub enum Role {
    /// An operator of two operands.
    Infix {
        /// 0 of the tightest operators, 9 of the loosest.
        level: u8,
        /// Which it is.
        operator: Operator,
    },
    /// `?`
    Question,
    /// `:`
    Colon,
    /// `)`
    Close,
    /// None of these.
    Nothing,
}

// An operator of 6.5.5 to 6.5.14.
fn infix(level: u8, operator: BinOp) -> Role
    ensures { result ≡ Role.Infix level (Operator.Two operator) }
{
    Role::Infix {
        level,
        operator: Operator::Two(operator),
    }
}

// An operator of 6.5.10 to 6.5.14.
#[tactic(auto, unfolding(crate::specs::inside::Roles::bitwise_role))]
fn bitwise_role(spelling: &[u8]) -> Role
    ensures { result ≡ bitwise_role spelling.now }
{
    if spelling == b"&".as_slice() {
        return infix(5, BinOp::BitAnd);
    }
    if spelling == b"^".as_slice() {
        return infix(6, BinOp::BitXor);
    }
    if spelling == b"|".as_slice() {
        return infix(7, BinOp::BitOr);
    }
    if spelling == b"&&".as_slice() {
        return Role::Infix {
            level: 8,
            operator: Operator::AndThen,
        };
    }
    if spelling == b"||".as_slice() {
        return Role::Infix {
            level: 9,
            operator: Operator::OrElse,
        };
    }
    Role::Nothing
}

// An operator of 6.5.8 to 6.5.14.
#[tactic(auto, unfolding(crate::specs::inside::Roles::comparison_role))]
fn comparison_role(spelling: &[u8]) -> Role
    ensures { result ≡ comparison_role spelling.now }
{
    if spelling == b"<".as_slice() {
        return infix(3, BinOp::Less);
    }
    if spelling == b">".as_slice() {
        return infix(3, BinOp::Greater);
    }
    if spelling == b"<=".as_slice() {
        return infix(3, BinOp::LessEqual);
    }
    if spelling == b">=".as_slice() {
        return infix(3, BinOp::GreaterEqual);
    }
    if spelling == b"==".as_slice() {
        return infix(4, BinOp::Equal);
    }
    if spelling == b"!=".as_slice() {
        return infix(4, BinOp::NotEqual);
    }
    bitwise_role(spelling)
}

// An operator of 6.5.5 to 6.5.14.
#[tactic(auto, unfolding(crate::specs::inside::Roles::arithmetic_role))]
fn arithmetic_role(spelling: &[u8]) -> Role
    ensures { result ≡ arithmetic_role spelling.now }
{
    if spelling == b"*".as_slice() {
        return infix(0, BinOp::Mul);
    }
    if spelling == b"/".as_slice() {
        return infix(0, BinOp::Div);
    }
    if spelling == b"%".as_slice() {
        return infix(0, BinOp::Rem);
    }
    if spelling == b"+".as_slice() {
        return infix(1, BinOp::Add);
    }
    if spelling == b"-".as_slice() {
        return infix(1, BinOp::Sub);
    }
    if spelling == b"<<".as_slice() {
        return infix(2, BinOp::Shl);
    }
    if spelling == b">>".as_slice() {
        return infix(2, BinOp::Shr);
    }
    comparison_role(spelling)
}

/// The role after an operand of the token with this spelling.
#[tactic(auto, unfolding(crate::specs::inside::Roles::role_of))]
pub(crate) fn role_of(spelling: &[u8]) -> Role
    ensures { result ≡ role_of spelling.now }
{
    if spelling == b"?".as_slice() {
        return Role::Question;
    }
    if spelling == b":".as_slice() {
        return Role::Colon;
    }
    if spelling == b")".as_slice() {
        return Role::Close;
    }
    arithmetic_role(spelling)
}

impl Role {
    /// How loose the operators that it ends may be: a level; 10 ends every operator, 11 also a `? :`.
    pub(crate) fn bound(self) -> u8
        ensures { result ≡ bound_of self }
    {
        match self {
            Role::Infix { level, operator: _ } => level,
            Role::Question => 10,
            Role::Colon => 11,
            Role::Close => 11,
            Role::Nothing => 11,
        }
    }
}

/// The operator that the token with this spelling is where an operand is wanted.
pub(crate) fn prefix_of(spelling: &[u8]) -> Option<PrefixOperator>
    ensures { result ≡ lookup (bytes_eq spelling.now) prefixes }
{
    if spelling == b"+".as_slice() {
        return Some(PrefixOperator::Plus);
    }
    if spelling == b"-".as_slice() {
        return Some(PrefixOperator::Minus);
    }
    if spelling == b"~".as_slice() {
        return Some(PrefixOperator::Complement);
    }
    if spelling == b"!".as_slice() {
        return Some(PrefixOperator::Negation);
    }
    None
}

/// Whether the token with this spelling opens parentheses.
pub(crate) fn opens(spelling: &[u8]) -> bool
    ensures { result ≡ bytes_eq spelling.now (codes "(") }
{
    spelling == b"(".as_slice()
}
