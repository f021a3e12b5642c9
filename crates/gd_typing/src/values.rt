//! Where a value is needed.
ghost use Rattle.std.specs.Prelude.{◌≡◌};
ghost use Rattle.gd_typing.specs.Places as spec;

use crate::verdict::Finding;
use gd_model::Ty;
use gd_rules::Rule;

/// What holds of an expression of this type where a value is needed: A29 of void and of a class itself. The expression is
/// Bad then.
pub fn as_value(ty: &Ty) -> Finding
    ensures { result ≡ spec.as_value ty.now }
{
    match ty {
        Ty::Void | Ty::Meta(_) => Finding::broken(Rule::NotAValue),
        _ => Finding::none(),
    }
}
