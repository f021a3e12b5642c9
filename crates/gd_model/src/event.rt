use gd_syntax::Text;

/// What a run lets the outside see.
#[derive(Drop)]
pub enum Event {
    /// A printed line.
    Line(Text),
    /// An object that was freed: its serial number and its class.
    Freed(u64, u32),
    /// An object that was still alive at the end: its serial number and its class.
    Leaked(u64, u32),
}
