/// A place in a project: the number of a file from 0, and a line and a column from 1.
///
/// A column counts code points, and a tab is one column.
#[derive(Clone, Copy, Debug, PartialEq, Eq, PartialOrd, Ord)]
pub struct Pos {
    pub file: u32,
    pub line: u32,
    pub column: u32,
}
