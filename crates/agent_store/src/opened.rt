//! What a load answers.

/// What a disk stands for.
#[derive(Drop)]
pub enum Opened<P> {
    /// Nothing was saved yet.
    Fresh,
    /// The part that was saved last.
    Kept(P),
}
