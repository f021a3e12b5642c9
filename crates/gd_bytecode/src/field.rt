//! The fields of a program, as a refusal names them. All numbers count from 0.

/// A field that holds a number of its own.
#[derive(Clone, Copy, Debug, PartialEq, Eq)]
pub enum Field {
    /// Of an entry of the types.
    InType(usize, TypeField),
    /// Of an entry of the constants.
    InConstant(usize, ConstField),
    /// Of a class.
    InClass(usize, ClassField),
    /// Of a function.
    InFunction(usize, FunctionField),
    /// The main class.
    Main,
}

#[derive(Clone, Copy, Debug, PartialEq, Eq)]
pub enum TypeField {
    /// The kind of the type.
    Kind,
    /// Its class.
    Class,
    /// The type of its elements.
    Element,
    /// The type of its keys.
    Key,
    /// The type of its values.
    Value,
}

#[derive(Clone, Copy, Debug, PartialEq, Eq)]
pub enum ConstField {
    /// The type.
    Typed,
    /// How many operands there are.
    Count,
    /// The tag of an operand.
    Tag(usize),
    /// The number of an operand.
    Number(usize),
}

#[derive(Clone, Copy, Debug, PartialEq, Eq)]
pub enum ClassField {
    Name,
    Path,
    Base,
    /// The name of a variable.
    Variable(usize),
    /// The type of a variable.
    VariableType(usize),
    /// The setter of a variable.
    Setter(usize),
    /// The getter of a variable.
    Getter(usize),
    /// The name of a method.
    Method(usize),
    /// The function of a method.
    MethodFunction(usize),
    /// The name of a signal.
    Signal(usize),
    /// The function for initial values.
    Initial,
    /// The function for static initial values.
    StaticInitial,
    StaticInit,
}

#[derive(Clone, Copy, Debug, PartialEq, Eq)]
pub enum FunctionField {
    Name,
    Path,
    Class,
    /// The type of a local.
    Local(usize),
    Returns,
    /// How many instructions there are.
    Count,
    /// The number `a` of an instruction.
    A(usize),
    /// The number `b` of an instruction.
    B(usize),
}
