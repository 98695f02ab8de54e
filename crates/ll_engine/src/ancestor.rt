//! What the machines of a batch's alternatives keep of it.
use ll_freeze::{ChoiceMark, Frozen};
use std::sync::Arc;

/// The batch that a machine was made of, and the mark of the machine as it was then.
#[derive(Drop)]
pub struct Ancestor<'p> {
    pub batch: Arc<Frozen<'p>>,
    pub base: ChoiceMark,
}
