//! The written types of all declarations of a project.
ghost use Rattle.std.specs.Prelude.{◌≡◌};
ghost use Rattle.std.specs.Option.{option_copied};
ghost use Rattle.gd_typing.specs.Members as spec;

use crate::enum_names::EnumNames;
use crate::member::{Member, Signature, Typing};
use crate::written::written_type;
use gd_members::{Found, MemberId};
use gd_model::Ty;
use gd_rules::Diag;
use gd_syntax::{DeclKind, FuncDecl, Text, TypeName, VarDecl};
use no_memory::NoMemory;
use script_table::Table;
use std::alloc::Global;

/// The name of the function that `new` calls.
const INIT: [char; 5] = ['_', 'i', 'n', 'i', 't'];

/// What the declarations of each class are, with their written types.
#[derive(Drop)]
pub struct Declared {
    /// The members of class k, from 1, stand at k - 1.
    classes: Vec<Vec<Member>>,
    /// The nearest `_init` of class k, from 1, stands at k - 1.
    constructors: Vec<Option<MemberId>>,
    faults: Vec<Diag>,
}

impl Declared {
    /// A declaration. None where the class has none at this place, and of RefCounted.
    pub fn member(&self, member: MemberId) -> Option<&Member>
        ensures { option_copied result ≡ spec.member_at self.now member }
    {
        if member.class == 0 {
            return None;
        }
        match self.classes.get((member.class - 1) as usize) {
            Some(members) => members.get(member.index as usize),
            None => None,
        }
    }

    /// A declaration that is a function.
    pub fn function(&self, member: MemberId) -> Option<&Signature>
        ensures { option_copied result ≡ spec.function_at self.now member }
    {
        match self.member(member) {
            Some(Member::Function(signature)) => Some(signature),
            _ => None,
        }
    }

    /// A declaration that is an enum.
    pub fn enumeration(&self, member: MemberId) -> Option<&EnumNames>
        ensures { option_copied result ≡ spec.enum_at self.now member }
    {
        match self.member(member) {
            Some(Member::Enum(names)) => Some(names),
            _ => None,
        }
    }

    /// The `_init` that `new` of a class calls: the nearest one, if there is one.
    pub fn constructor(&self, class: u32) -> Option<MemberId>
        ensures { result ≡ spec.constructor_of self.now class }
    {
        if class == 0 {
            return None;
        }
        match self.constructors.get((class - 1) as usize) {
            Some(constructor) => *constructor,
            None => None,
        }
    }

    /// The places at which A07, A08 and A45 hold in the types of declarations: of variables, constants, parameters and
    /// results, those of signals among them, but not in the bodies of functions and accessors.
    pub fn faults(&self) -> &[Diag] {
        self.faults.as_slice()
    }
}

/// What the declarations of a project say.
pub fn declare(alloc: Global, table: &Table) -> Result<Declared, NoMemory> {
    let mut classes = Vec::new(alloc);
    let mut faults = Vec::new(alloc);
    for place in 0..table.class_count() {
        classes.push(members_of(alloc, table, place + 1, &mut faults)?)?;
    }
    let mut declared = Declared {
        classes,
        constructors: Vec::new(alloc),
        faults,
    };
    let init = init_name(alloc)?;
    for place in 0..table.class_count() {
        let constructor = function_at(&declared, table.member(place + 1, &init));
        declared.constructors.push(constructor)?;
    }
    Ok(declared)
}

fn init_name(alloc: Global) -> Result<Text, NoMemory> {
    match Text::of_slice(alloc, &INIT) {
        Ok(name) => Ok(name),
        Err(_) => Err(NoMemory),
    }
}

fn function_at(declared: &Declared, found: Option<Found>) -> Option<MemberId> {
    match found {
        Some(Found::Member(member)) if declared.function(member).is_some() => Some(member),
        _ => None,
    }
}

fn members_of(
    alloc: Global,
    table: &Table,
    class: u32,
    faults: &mut Vec<Diag>,
) -> Result<Vec<Member>, NoMemory> {
    let mut members = Vec::new(alloc);
    if let Some(declared) = table.class(class) {
        for member in declared.members.as_slice() {
            members.push(member_of(alloc, table, class, &member.kind, faults)?)?;
        }
    }
    Ok(members)
}

fn member_of(
    alloc: Global,
    table: &Table,
    class: u32,
    kind: &DeclKind,
    faults: &mut Vec<Diag>,
) -> Result<Member, NoMemory> {
    Ok(match kind {
        DeclKind::Var(variable) => Member::Variable(
            variable.is_static,
            typing_of(alloc, table, class, variable, faults)?,
        ),
        DeclKind::Const(constant) => {
            Member::Constant(optional(alloc, table, class, &constant.typed, faults)?)
        }
        DeclKind::Func(function) => {
            Member::Function(signature_of(alloc, table, class, function, faults)?)
        }
        DeclKind::Signal(_, _, parameters) => {
            let parameters = typings_of(alloc, table, class, parameters.items(), faults)?;
            Member::Signal(parameters.len())
        }
        DeclKind::Enum(_, values) => {
            let mut names = EnumNames::new(alloc);
            for value in values.items() {
                names.add(&value.0)?;
            }
            Member::Enum(names)
        }
        DeclKind::Class(_) => Member::Class,
        DeclKind::Nothing => Member::Nothing,
    })
}

fn signature_of(
    alloc: Global,
    table: &Table,
    class: u32,
    function: &FuncDecl,
    faults: &mut Vec<Diag>,
) -> Result<Signature, NoMemory> {
    Ok(Signature {
        is_static: function.is_static,
        parameters: typings_of(alloc, table, class, function.params.items(), faults)?,
        required: required(function.params.items()),
        result: optional(alloc, table, class, &function.result, faults)?,
    })
}

/// How many arguments a call needs, so that each parameter without a default value gets one.
fn required(parameters: &[VarDecl]) -> u32 {
    let mut needed = 0;
    let mut number = 0u32;
    for parameter in parameters {
        number = number.saturating_add(1);
        if parameter.value.is_none() {
            needed = number;
        }
    }
    needed
}

fn typings_of(
    alloc: Global,
    table: &Table,
    class: u32,
    parameters: &[VarDecl],
    faults: &mut Vec<Diag>,
) -> Result<Vec<Typing>, NoMemory> {
    let mut typings = Vec::new(alloc);
    for parameter in parameters {
        typings.push(typing_of(alloc, table, class, parameter, faults)?)?;
    }
    Ok(typings)
}

fn typing_of(
    alloc: Global,
    table: &Table,
    class: u32,
    variable: &VarDecl,
    faults: &mut Vec<Diag>,
) -> Result<Typing, NoMemory> {
    Ok(
        match optional(alloc, table, class, &variable.typed, faults)? {
            Some(ty) => Typing::Written(ty),
            None if variable.inferred => Typing::Inferred,
            None => Typing::Untyped,
        },
    )
}

fn optional(
    alloc: Global,
    table: &Table,
    class: u32,
    written: &Option<TypeName>,
    faults: &mut Vec<Diag>,
) -> Result<Option<Ty>, NoMemory> {
    Ok(match written {
        Some(written) => Some(written_type(alloc, table, class, written, faults)?),
        None => None,
    })
}
