//! Bounds of variables, which alone change from one question to the next.
use crate::stop::Stop;
use crate::whole::Ratio;
use std::alloc::Global;

/// The bounds of a variable, times the scale of its row if it is the value of one.
#[derive(Clone, Copy, Debug)]
pub struct Limits {
    pub low: Option<Ratio>,
    pub high: Option<Ratio>,
}

/// A bound that is there as 0, and one that is not as another number.
fn box_limit(limit: Option<Ratio>, otherwise: i128) -> Option<Ratio> {
    let bound = if limit.is_some() { 0 } else { otherwise };
    Some(Ratio::whole(bound))
}

/// The bounds of the program from whose optimum the costs' signs are seen to be right: those that
/// are there are 0, and the others -1 and 1.
pub fn boxes_of(alloc: Global, limits: &[Limits]) -> Result<Vec<Limits>, Stop> {
    let mut boxes = Vec::new(alloc);
    for limit in limits {
        boxes.push(Limits {
            low: box_limit(limit.low, -1),
            high: box_limit(limit.high, 1),
        })?;
    }
    Ok(boxes)
}
