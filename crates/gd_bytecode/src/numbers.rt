//! Texts and ints by a number that equal ones share.
ghost use Rattle.std.specs.Prelude.{◌≡◌, ℤ, nat_eq, slice_get, true, Some, IfOk, OnOk};
ghost use Rattle.indexmap.specs.IndexSet.{insert_key};
ghost use Rattle.std.specs.List.{IsDistinct};
ghost use Rattle.std.specs.Ordering.{int_eq};
ghost use Rattle.std.specs.Str.{bytes_eq};
ghost use Rattle.gd_bytecode.specs.Numbering as spec;
ghost use Rattle.gd_bytecode.specs.Tables.{both};

use crate::Program;
use gd_syntax::Text;
use indexmap::IndexSet;
use no_memory::NoMemory;
use std::alloc::Global;

/// For each text and each int of a program a number: equal ones have the same, and others have others.
#[derive(Drop)]
pub struct Numbers {
    pub texts: Vec<usize>,
    pub ints: Vec<usize>,
}

impl Numbers {
    /// The numbers of a program's texts and ints.
    pub fn of(alloc: Global, program: &Program) -> Result<Numbers, NoMemory>
        ensures { IfOk result (λ s. spec.AreNumbers program.now s) }
    {
        Ok(Numbers {
            texts: number_texts(alloc, program.texts.items())?,
            ints: number_ints(alloc, program.ints.items())?,
        })
    }

    /// The number of a text, which has to be there.
    pub fn text(&self, index: u32) -> Option<usize>
        ensures { result ≡ slice_get self.now.texts.items index }
    {
        self.texts.get(index as usize).copied()
    }

    /// Whether two numbers name one text, which is there.
    pub fn is_one_text(&self, one: u32, other: u32) -> bool
        ensures { result ≡ both nat_eq (slice_get self.now.texts.items one) (slice_get self.now.texts.items other) }
    {
        match (self.text(one), self.text(other)) {
            (Some(one), Some(other)) => one == other,
            _ => false,
        }
    }

    pub fn int(&self, index: u32) -> Option<usize>
        ensures { result ≡ slice_get self.now.ints.items index }
    {
        self.ints.get(index as usize).copied()
    }
}

fn number_texts(alloc: Global, texts: &[Text]) -> Result<Vec<usize>, NoMemory>
    ensures { IfOk result (λ ns. spec.Share bytes_eq texts.now ns.items) }
{
    let mut met = IndexSet::new(alloc);
    let mut numbers = Vec::new(alloc);
    for text in texts {
        let (number, _) = met.insert_full(text.share()?)?;
        numbers.push(number)?;
    }
    Ok(numbers)
}

fn number_ints(alloc: Global, ints: &[i64]) -> Result<Vec<usize>, NoMemory>
    ensures { IfOk result (λ ns. spec.Share int_eq ints.now ns.items) }
{
    let mut met = IndexSet::new(alloc);
    let mut numbers = Vec::new(alloc);
    for int in ints {
        let number = number_int(&mut met, int)?;
        numbers.push(number)?;
    }
    Ok(numbers)
}

// The number of an int, after those that were met before it.
fn number_int(met: &mut IndexSet<i64>, int: &i64) -> Result<usize, NoMemory>
    ensures keys { OnOk result (met.new.keys ≡ insert_key int_eq met.old.keys int.now) }
    ensures stored { IfOk result (λ n. (k : ℤ) × (slice_get met.new.keys n ≡ Some k) × (int_eq int.now k ≡ true)) }
    ensures unique { OnOk result (IsDistinct int_eq met.new.keys) }
{
    let (number, _) = met.insert_full(*int)?;
    Ok(number)
}
