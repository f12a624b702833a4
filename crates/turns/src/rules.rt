// What all workers share: the plan's lateness and stages, and the sizes.

use plans::numbers::Span;
use plans::stages::Stage;
use sizes::Sizes;

#[derive(Drop)]
pub struct Rules<'a> {
    pub late: Span,
    pub stages: &'a [Stage],
    pub sizes: Sizes,
}
