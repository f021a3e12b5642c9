/// The operators, in the order of their numbers, which images and tables use (docs/runtime.md, "Operators").
///
/// `Negate`, `Plus`, `Complement` and `Not` take one operand, the others two.
#[derive(Clone, Copy, Debug, PartialEq, Eq)]
pub enum Operator {
    Power,
    Multiply,
    Divide,
    Remainder,
    Add,
    Subtract,
    ShiftLeft,
    ShiftRight,
    BitAnd,
    BitXor,
    BitOr,
    Equal,
    NotEqual,
    Less,
    LessEqual,
    Greater,
    GreaterEqual,
    In,
    NotIn,
    Negate,
    Plus,
    Complement,
    Not,
}
