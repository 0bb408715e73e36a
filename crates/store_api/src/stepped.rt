//! How far a step of some work came. It stands here because searches, changes of rows and what statements ask of the store
//! all go by short steps.

/// How far a step came.
#[derive(Drop)]
pub enum Stepped<T, C> {
    /// Some steps are left.
    Went,
    /// This is over, and what came of it.
    Done(T),
    /// What came next was not done, for this cause: the same step is to be made again, or the work is given up.
    Hindered(C),
}
