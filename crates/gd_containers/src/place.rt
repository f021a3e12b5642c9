//! The places that numbers name, where a negative number counts from the end.
ghost use Rattle.std.specs.Prelude.{◌≡◌, ◌<◌, ◌≤◌, IfSome};
ghost use Rattle.gd_model.specs.Place as spec;

/// The place of the element that `at` names among `len` elements.
pub fn item_place(at: i64, len: usize) -> Option<usize>
    ensures value { result ≡ spec.place at len }
    ensures within { IfSome result (λ i. i < len) }
{
    if at >= 0 {
        let i = at as usize;
        if i < len { Some(i) } else { None }
    } else {
        let back = at.unsigned_abs() as usize;
        if back <= len { Some(len - back) } else { None }
    }
}

/// The place before which an element goes: that of an element, or the end.
pub fn gap_place(at: i64, len: usize) -> Option<usize>
    ensures value { result ≡ spec.gap at len }
    ensures within { IfSome result (λ i. i ≤ len) }
{
    if at >= 0 {
        let i = at as usize;
        if i <= len { Some(i) } else { None }
    } else {
        let back = at.unsigned_abs() as usize;
        if back <= len { Some(len - back) } else { None }
    }
}

/// The place that `at` names, or the nearest from 0 to `len`.
pub fn clamped_place(at: i64, len: usize) -> usize
    ensures value { result ≡ spec.clamped at len }
    ensures within { result ≤ len }
{
    if at >= 0 {
        len.min(at as usize)
    } else {
        len.saturating_sub(at.unsigned_abs() as usize)
    }
}
