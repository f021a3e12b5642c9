//! The operators on Strings.
ghost use Rattle.gd_answers.specs.Answers.{Gives};
ghost use Rattle.value_semantics.specs.Texts.{texts_give};

use gd_answers::{Fresh, boolean, refused, text};
use gd_containers::ThingFault;
use gd_model::RunFault;
use gd_printing::formatted;
use gd_syntax::{Operator, Text};
use gd_text::{Arg, concat, find};
use std::alloc::Global;
use std::cmp::Ordering;

/// An operator between two Strings. `TooLong` where the text that it gives passes the limit, `BadFormat` where the pattern is
/// none or does not fit its argument, and `BadOperands` where there is no operator between Strings.
pub fn apply_texts(alloc: Global, op: Operator, x: &Text, y: &Text) -> Result<Fresh, ThingFault>
    ensures { Gives (texts_give op x.now y.now) result }
{
    match op {
        Operator::Add => text(concat(alloc, x, y)),
        Operator::Remainder => formatted(alloc, x, &[Arg::Str(y.share()?)]),
        Operator::Equal => boolean(*x == *y),
        Operator::NotEqual => boolean(!(*x == *y)),
        Operator::Less => boolean(x.compare(y) == Ordering::Less),
        Operator::LessEqual => boolean(x.compare(y) != Ordering::Greater),
        Operator::Greater => boolean(x.compare(y) == Ordering::Greater),
        Operator::GreaterEqual => boolean(x.compare(y) != Ordering::Less),
        Operator::In => boolean(find(y, x, 0).is_some()),
        Operator::NotIn => boolean(find(y, x, 0).is_none()),
        _ => refused(RunFault::BadOperands),
    }
}
