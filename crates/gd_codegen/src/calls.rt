//! The code of calls.
//!
//! Receiver and arguments are evaluated from left to right. Then come the tests of arguments that the analysis foresaw
//! (`foreseen`), and the call.
//!
//! | Call | Code |
//! |---|---|
//! | of a builtin function | arguments, Builtin |
//! | of a static function by its bare name | arguments, Direct |
//! | of another function by its bare name | Me, arguments, Call |
//! | `C.new(..)` | the way to C, arguments, New |
//! | `C.f(..)` | the way to C, arguments, Direct |
//! | `x.f(..)` | x, arguments, Call |
//! | `super(..)`, `super.f(..)` | arguments, Direct |

use crate::action::{Action, Literal};
use crate::draft::Draft;
use crate::foreseen::{Checks, checks_of, test_arguments};
use crate::function_key::FunctionKey;
use crate::number::number;
use crate::scene::Scene;
use gd_bytecode::Opcode;
use gd_members::{Found, MemberId};
use gd_model::Ty;
use gd_syntax::{Expr, ExprKind, Pos, Text};
use gd_typing::Callee;
use no_memory::NoMemory;
use value_semantics::builtin_numbered;

/// What a call calls once receiver and arguments stand on the stack.
#[derive(Clone, Copy)]
enum Called<'a> {
    /// A method of the receiver.
    Method(&'a Text),
    /// A method of the object in whose code the call stands.
    Own(&'a Text),
    /// A function that is known.
    Function(MemberId),
    /// A builtin function, by its number.
    Builtin(u16),
    /// The constructor of a class.
    New(u32),
    /// Nothing: the value is null, and no argument is evaluated. No accepted project has such a call.
    Nothing,
}

/// A call, with what the analysis foresaw of it.
#[derive(Clone, Copy)]
pub struct Plan<'a> {
    called: Called<'a>,
    checks: Checks<'a>,
}

impl<'a> Plan<'a> {
    fn of_function(member: MemberId, arguments: &'a [Expr]) -> Plan<'a> {
        Plan {
            called: Called::Function(member),
            checks: checks_of(Callee::Function(member), None, arguments),
        }
    }

    fn nothing(arguments: &'a [Expr]) -> Plan<'a> {
        Plan {
            called: Called::Nothing,
            checks: checks_of(Callee::Nothing, None, arguments),
        }
    }

    /// Whether the arguments are evaluated.
    pub fn takes_arguments(&self) -> bool {
        !matches!(self.called, Called::Nothing)
    }
}

/// What a call of this callee with these arguments does. The call is found at its place.
pub fn plan_of<'a>(
    scene: &Scene<'a>,
    pos: Pos,
    callee: &'a Expr,
    arguments: &'a [Expr],
) -> Plan<'a> {
    match &callee.kind {
        ExprKind::Name(name) => bare_plan(scene, pos, name, arguments),
        ExprKind::Attr(base, name) => {
            if scene.is_class(base.get()) {
                class_plan(scene, pos, base.get(), name, arguments)
            } else {
                method_plan(scene, pos, base.get(), name, arguments)
            }
        }
        _ => Plan::nothing(arguments),
    }
}

// A call of a bare name.
fn bare_plan<'a>(scene: &Scene<'a>, pos: Pos, name: &'a Text, arguments: &'a [Expr]) -> Plan<'a> {
    match scene.found(pos) {
        Some(Found::Member(member)) => {
            let mut plan = Plan::of_function(member, arguments);
            if is_of_instances(scene, member) {
                plan.called = Called::Own(name);
            }
            plan
        }
        Some(Found::Builtin(function)) => Plan {
            called: Called::Builtin(function),
            checks: checks_of(builtin_callee(function), None, arguments),
        },
        _ => Plan::nothing(arguments),
    }
}

fn is_of_instances(scene: &Scene<'_>, member: MemberId) -> bool {
    match scene.declared().function(member) {
        Some(signature) => !signature.is_static,
        None => false,
    }
}

/// What the builtin with this number is as what is called.
pub fn builtin_callee(number: u16) -> Callee {
    match builtin_numbered(number) {
        Some(row) => Callee::Builtin(row.builtin),
        None => Callee::Nothing,
    }
}

// A call through a class: its constructor, or a static function.
fn class_plan<'a>(
    scene: &Scene<'a>,
    pos: Pos,
    base: &Expr,
    name: &Text,
    arguments: &'a [Expr],
) -> Plan<'a> {
    if is_new(name) {
        let class = class_of(scene, base);
        let init = scene.declared().constructor(class);
        return Plan {
            called: Called::New(class),
            checks: checks_of(Callee::Constructor(class, init), None, arguments),
        };
    }
    found_plan(scene, pos, arguments)
}

// A call of the function that was found.
fn found_plan<'a>(scene: &Scene<'a>, pos: Pos, arguments: &'a [Expr]) -> Plan<'a> {
    match scene.found(pos) {
        Some(Found::Member(member)) => Plan::of_function(member, arguments),
        _ => Plan::nothing(arguments),
    }
}

// The class that an expression stands for.
fn class_of(scene: &Scene<'_>, base: &Expr) -> u32 {
    match scene.ty(base) {
        Some(Ty::Meta(class)) => *class,
        _ => 0,
    }
}

fn is_new(name: &Text) -> bool {
    matches!(name.chars(), ['n', 'e', 'w'])
}

// A call of a method of a value. A null receiver is a fault that comes before the tests that were foreseen.
fn method_plan<'a>(
    scene: &Scene<'a>,
    pos: Pos,
    base: &Expr,
    name: &'a Text,
    arguments: &'a [Expr],
) -> Plan<'a> {
    let mut checks = checks_of(method_callee(scene, pos), scene.ty(base), arguments);
    checks.may_be_null = may_be_null(scene, base);
    Plan {
        called: Called::Method(name),
        checks,
    }
}

// What a method call is known to call.
fn method_callee(scene: &Scene<'_>, pos: Pos) -> Callee {
    match scene.found(pos) {
        Some(Found::Member(member)) => Callee::Function(member),
        Some(Found::Builtin(number)) => builtin_callee(number),
        _ => Callee::Dynamic,
    }
}

// Whether a receiver may be null of which it is known what is called.
fn may_be_null(scene: &Scene<'_>, base: &Expr) -> bool {
    if matches!(&base.kind, ExprKind::Me) {
        return false;
    }
    matches!(
        scene.ty(base),
        Some(Ty::Class(_) | Ty::Callable | Ty::Signal)
    )
}

/// What `super(..)` and `super.f(..)` do: they call the base's function, on the receiver.
pub fn super_plan<'a>(scene: &Scene<'a>, pos: Pos, arguments: &'a [Expr]) -> Plan<'a> {
    found_plan(scene, pos, arguments)
}

/// The receiver of a call of a bare name, which comes before the arguments.
pub fn own_receiver(draft: &mut Draft<'_>, plan: &Plan<'_>, pos: Pos) -> Result<(), NoMemory> {
    match plan.called {
        Called::Own(_) => draft.plain(Opcode::Me, 0, 0, pos),
        _ => Ok(()),
    }
}

/// The end of a call, whose receiver and arguments stand on the stack: the tests that were foreseen, and the call.
pub fn end_call<'a>(
    scene: &Scene<'a>,
    draft: &mut Draft<'a>,
    plan: &Plan<'a>,
    pos: Pos,
) -> Result<(), NoMemory> {
    if plan.takes_arguments() {
        test_arguments(scene, draft, pos, plan.checks)?;
    }
    let count = number(plan.checks.arguments.len())?;
    match plan.called {
        Called::Method(name) | Called::Own(name) => draft.add(Action::Call(count, name), pos),
        Called::Function(member) => {
            draft.add(Action::Direct(count, FunctionKey::Declared(member)), pos)
        }
        Called::Builtin(function) => draft.plain(Opcode::Builtin, count, function as u32, pos),
        Called::New(class) => draft.plain(Opcode::New, count, class, pos),
        Called::Nothing => draft.value(Literal::Null, pos),
    }
}
