//! Places in lists, of which none is taken for granted.
use crate::stop::Stop;

/// The item at place `i`, from 0, or a decline.
pub fn at<T: Copy>(list: &[T], i: usize) -> Result<T, Stop> {
    if i < list.len() {
        Ok(list[i])
    } else {
        Err(Stop::Declined)
    }
}

/// The same of items that are not copied.
pub fn item<T>(list: &[T], i: usize) -> Result<&T, Stop> {
    if i < list.len() {
        Ok(&list[i])
    } else {
        Err(Stop::Declined)
    }
}

/// Puts an item at place `i`, from 0, or declines.
pub fn put<T: Copy>(list: &mut [T], i: usize, item: T) -> Result<(), Stop> {
    if i < list.len() {
        list[i] = item;
        Ok(())
    } else {
        Err(Stop::Declined)
    }
}
