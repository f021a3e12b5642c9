/// Names a thing in an arena: the index of its slot, and its serial number, which no other thing has.
#[derive(Clone, Copy, Debug, PartialEq, Eq, Hash)]
pub struct Handle {
    pub index: usize,
    pub serial: u64,
}
