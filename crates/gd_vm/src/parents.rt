//! The bases of classes by their numbers.
ghost use Rattle.std.specs.Prelude.{◌≡◌};
ghost use Rattle.gd_vm.specs.Parents.{parent_of};

use assignability::Bases;

/// The base of each class, by the classes' numbers: 0 is RefCounted, which is its own.
#[derive(Drop)]
pub struct Parents {
    pub of: Vec<u32>,
}

impl Parents {
    /// The base of a class.
    #[inline(always)]
    pub fn parent(&self, class: u32) -> u32
        ensures { result ≡ parent_of self.now.of.items class }
    {
        self.of.get(class as usize).copied().unwrap_or(0)
    }
}

impl Bases for Parents {
    ghost use Rattle.gd_vm.specs.Parents.{bases_of};

    ghost bases = { λ parents class. bases_of parents.of.items class };

    fn is_base(&self, class: u32, base: u32) -> bool {
        let mut at = class;
        for _ in 0..self.of.len() {
            if at == 0 {
                return base == 0;
            }
            if at == base {
                return true;
            }
            at = self.parent(at);
        }
        base == 0
    }
}
