//! What a run works with.
use s2edit::Editor;
use std::alloc::Global;

/// What a run works with: all that its caller lends it but the reader.
#[derive(Drop)]
pub(crate) struct Desk<'e, 'w, 's, 'n, 'o, W, S, N, O> {
    /// Where memory comes from.
    pub(crate) alloc: Global,
    /// The registers and their history.
    pub(crate) editor: &'e mut Editor,
    /// Where answers go.
    pub(crate) writer: &'w mut W,
    /// The named files.
    pub(crate) shelf: &'s mut S,
    /// Where notes on refused lines go.
    pub(crate) notes: &'n mut N,
    /// Who sees what the run does.
    pub(crate) observer: &'o mut O,
}
