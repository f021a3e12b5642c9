//! The operators by their numbers.
use gd_syntax::Operator;

const OPERATORS: [Operator; 23] = [
    Operator::Power,
    Operator::Multiply,
    Operator::Divide,
    Operator::Remainder,
    Operator::Add,
    Operator::Subtract,
    Operator::ShiftLeft,
    Operator::ShiftRight,
    Operator::BitAnd,
    Operator::BitXor,
    Operator::BitOr,
    Operator::Equal,
    Operator::NotEqual,
    Operator::Less,
    Operator::LessEqual,
    Operator::Greater,
    Operator::GreaterEqual,
    Operator::In,
    Operator::NotIn,
    Operator::Negate,
    Operator::Plus,
    Operator::Complement,
    Operator::Not,
];

/// The operator with this number.
pub fn operator_numbered(number: usize) -> Operator {
    OPERATORS.get(number).copied().unwrap_or(Operator::Not)
}
