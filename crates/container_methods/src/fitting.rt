//! Whether values fit the type of a container.
ghost use Rattle.std.specs.Prelude.{◌≡◌, map};
ghost use Rattle.std.specs.List.{list_all};
ghost use Rattle.gd_model.specs.Meant.{datum};
ghost use Rattle.gd_model.specs.Whole.{AllWhole};
ghost use Rattle.assignability.specs.Fits as spec;

use assignability::{Bases, fits};
use gd_containers::Look;
use gd_model::{Ty, Value};

/// Whether each of the values fits the type.
pub fn all_fit<B: Bases, K: Look>(bases: &B, look: &K, t: &Ty, items: &[Value]) -> bool
    requires whole { AllWhole (K.things look.now) (K.names look.now) items.now }
    ensures { result ≡ list_all (spec.fits (B.bases bases.now) (K.store look.now) t.now) (map datum items.now) }
{
    for i in 0..items.len() {
        if !fits(bases, look, t, &items[i]) {
            return false;
        }
    }
    true
}
