//! For which kinds of operands there is each operator, and what type it gives (docs/runtime.md, "Operators").
ghost use Rattle.std.specs.Prelude.{◌≡◌, map};
ghost use Rattle.gd_model.specs.SameType.{same_type};
ghost use Rattle.value_semantics.specs.Kinds as spec;
ghost use Rattle.value_semantics.specs.OperatorRows as table;

use crate::kind::{Kind, kind_of_type};
use gd_model::Ty;
use gd_syntax::Operator;

/// The type that an operator gives.
#[derive(Clone, Copy, Debug, PartialEq, Eq)]
pub enum Given {
    Variant,
    Bool,
    Int,
    Str,
    /// Array
    Array,
    /// the type of the left operand: arrays with one element type are joined
    Left,
}

/// Which operands an operator takes.
#[derive(Clone, Copy, Debug, PartialEq, Eq)]
pub enum Operands {
    /// two ints
    Ints,
    /// two Strings
    Strings,
    /// two arrays
    Arrays,
    /// a String and any value
    Pattern,
    /// null and any value, or two of one kind
    Alike,
    /// any value, and an array
    Element,
    /// a key, and a dictionary
    Key,
    /// an int alone
    OneInt,
    /// any value alone
    One,
}

/// Operands that an operator takes, and what it gives then. Arrays of one type give one of that type.
#[derive(Clone, Copy)]
pub struct Case {
    pub operands: Operands,
    pub gives: Given,
}

/// The row of an operator.
#[derive(Clone, Copy)]
pub struct OperatorRow {
    pub operator: Operator,
    pub is_unary: bool,
    pub cases: &'static [Case],
    /// what it gives where an operand may be of any kind
    pub unknown: Given,
}

/// The rows of N operators, in the order of their numbers.
#[derive(Clone, Copy)]
struct OpTable<const N: usize> {
    rows: &'static [OperatorRow; N],
}

/// Operands and what they give.
macro_rules! case {
    ($operands:ident => $gives:ident) => {
        Case {
            operands: Operands::$operands,
            gives: Given::$gives,
        }
    };
}

/// An operator between two operands, or `before` one; what it gives where it knows nothing of them; its cases.
macro_rules! row {
    ($operator:ident, $unknown:ident, $($operands:ident => $gives:ident),*) => {
        OperatorRow {
            operator: Operator::$operator,
            is_unary: false,
            cases: &[$(case!($operands => $gives)),*],
            unknown: Given::$unknown,
        }
    };
    (before $operator:ident, $unknown:ident, $($operands:ident => $gives:ident),*) => {
        OperatorRow {
            operator: Operator::$operator,
            is_unary: true,
            cases: &[$(case!($operands => $gives)),*],
            unknown: Given::$unknown,
        }
    };
}

static OPERATORS: OpTable<23> = OpTable {
    rows: &[
        row!(Power, Variant, Ints => Int),
        row!(Multiply, Variant, Ints => Int),
        row!(Divide, Variant, Ints => Int),
        row!(Remainder, Variant, Ints => Int, Pattern => Str),
        row!(Add, Variant, Ints => Int, Strings => Str, Arrays => Array),
        row!(Subtract, Variant, Ints => Int),
        row!(ShiftLeft, Variant, Ints => Int),
        row!(ShiftRight, Variant, Ints => Int),
        row!(BitAnd, Variant, Ints => Int),
        row!(BitXor, Variant, Ints => Int),
        row!(BitOr, Variant, Ints => Int),
        row!(Equal, Bool, Alike => Bool),
        row!(NotEqual, Bool, Alike => Bool),
        row!(Less, Bool, Ints => Bool, Strings => Bool),
        row!(LessEqual, Bool, Ints => Bool, Strings => Bool),
        row!(Greater, Bool, Ints => Bool, Strings => Bool),
        row!(GreaterEqual, Bool, Ints => Bool, Strings => Bool),
        row!(In, Bool, Strings => Bool, Element => Bool, Key => Bool),
        row!(NotIn, Bool, Strings => Bool, Element => Bool, Key => Bool),
        row!(before Negate, Variant, OneInt => Int),
        row!(before Plus, Variant, OneInt => Int),
        row!(before Complement, Variant, OneInt => Int),
        row!(before Not, Bool, One => Bool),
    ],
};

/// The row of an operator.
pub fn operator_row(op: Operator) -> &'static OperatorRow
    ensures { table.seen result.now ≡ table.row_of op }
{
    &OPERATORS.rows[op as usize]
}

/// What the operator gives on operands of these kinds, by the first case that takes them.
fn given_for(op: Operator, a: Kind, b: Kind) -> Option<Given>
    ensures { result ≡ table.first_given (table.row_of op).cases a b }
{
    let row = operator_row(op);
    first_given(row.cases, a, b)
}

fn first_given(cases: &[Case], a: Kind, b: Kind) -> Option<Given>
    ensures { result ≡ table.first_given (map (λ c. (c.operands, c.gives)) cases.now) a b }
{
    for case in cases {
        if fits(case.operands, a, b) {
            return Some(case.gives);
        }
    }
    None
}

/// Whether these are operands of these kinds, `b` being ignored where there is one.
fn fits(operands: Operands, a: Kind, b: Kind) -> bool
    ensures { result ≡ table.fits operands a b }
{
    match operands {
        Operands::Ints => ints(a, b),
        Operands::Strings => texts(a, b),
        Operands::Arrays => arrays(a, b),
        Operands::Pattern => matches!(a, Kind::Str),
        Operands::Alike => alike(a, b),
        Operands::Element => matches!(b, Kind::Array),
        Operands::Key => is_key(a) && matches!(b, Kind::Dict),
        Operands::OneInt => matches!(a, Kind::Int),
        Operands::One => true,
    }
}

/// Whether there is the operator for operands of these kinds, `b` being ignored where it takes one operand.
#[tactic(auto, using(crate::proofs::OperatorTable::takes_by_table))]
pub fn takes(op: Operator, a: Kind, b: Kind) -> bool
    ensures { result ≡ spec.takes op a b }
{
    given_for(op, a, b).is_some()
}

fn ints(a: Kind, b: Kind) -> bool
    ensures { result ≡ spec.ints a b }
{
    matches!((a, b), (Kind::Int, Kind::Int))
}

fn texts(a: Kind, b: Kind) -> bool
    ensures { result ≡ spec.texts a b }
{
    matches!((a, b), (Kind::Str, Kind::Str))
}

fn arrays(a: Kind, b: Kind) -> bool
    ensures { result ≡ spec.arrays a b }
{
    matches!((a, b), (Kind::Array, Kind::Array))
}

/// Whether values of these kinds are compared: null and any other, or one kind.
pub fn alike(a: Kind, b: Kind) -> bool
    ensures { result ≡ spec.alike a b }
{
    match a {
        Kind::Nil => true,
        Kind::Bool => matches!(b, Kind::Nil | Kind::Bool),
        Kind::Int => matches!(b, Kind::Nil | Kind::Int),
        Kind::Str => matches!(b, Kind::Nil | Kind::Str),
        Kind::Object => matches!(b, Kind::Nil | Kind::Object),
        Kind::Array => matches!(b, Kind::Nil | Kind::Array),
        Kind::Dict => matches!(b, Kind::Nil | Kind::Dict),
        Kind::Callable => matches!(b, Kind::Nil | Kind::Callable),
        Kind::Signal => matches!(b, Kind::Nil | Kind::Signal),
    }
}

/// Whether values of this kind are keys.
fn is_key(kind: Kind) -> bool
    ensures { result ≡ spec.is_key kind }
{
    matches!(
        kind,
        Kind::Nil | Kind::Bool | Kind::Int | Kind::Str | Kind::Object
    )
}

/// Whether the operator asks if one value is in another.
pub fn is_membership(op: Operator) -> bool
    ensures { result ≡ spec.is_membership op }
{
    matches!(op, Operator::In | Operator::NotIn)
}

/// Whether the operator stands before one operand.
#[tactic(auto, using(crate::proofs::OperatorTable::unary_by_table))]
pub fn is_unary(op: Operator) -> bool
    ensures { result ≡ spec.is_unary op }
{
    operator_row(op).is_unary
}

/// The type that the operator gives with operands of these types, `b` being ignored where it takes one operand;
/// `None` exactly where it is not there for them. With a Variant operand it is bool for a test, else Variant.
pub fn result_type(op: Operator, a: &Ty, b: &Ty) -> Option<Given>
    ensures { result ≡ spec.result_type op a.now b.now (same_type a.now b.now) }
{
    if is_no_value(a) || (!is_unary(op) && is_no_value(b)) {
        return None;
    }
    by_kinds(op, kind_of_type(a), right_kind(op, b), a.same(b))
}

#[tactic(auto, using(crate::proofs::OperatorTable::known_by_table, crate::proofs::OperatorTable::unknown_by_table))]
fn by_kinds(op: Operator, a: Option<Kind>, b: Option<Kind>, same: bool) -> Option<Given>
    ensures { result ≡ spec.by_kinds op a b same }
{
    match (a, b) {
        (Some(left), Some(right)) => of_one_type(given_for(op, left, right), same),
        _ => Some(operator_row(op).unknown),
    }
}

/// What is given where the operands have one type, as `same` says, or have not.
fn of_one_type(given: Option<Given>, same: bool) -> Option<Given>
    ensures { result ≡ table.of_one_type given same }
{
    match given {
        Some(Given::Array) if same => Some(Given::Left),
        given => given,
    }
}

fn is_no_value(t: &Ty) -> bool
    ensures { result ≡ spec.is_no_value t.now }
{
    matches!(t, Ty::Void | Ty::Meta(_) | Ty::Bad)
}

fn right_kind(op: Operator, b: &Ty) -> Option<Kind>
    ensures { result ≡ spec.right_kind op b.now }
{
    if is_unary(op) {
        Some(Kind::Nil)
    } else {
        kind_of_type(b)
    }
}
