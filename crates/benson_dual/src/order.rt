//! Orders in which the facets of an image may be taken. Each goes from point to point, so that most
//! generators of the outer polyhedra are points of the image at once, with entries as short as
//! those of the answer.
ghost use Rattle.std.specs.Prelude.{◌≡◌, ◌<◌, ◌≤◌, ◌++◌, ◌∷◌, [], ℕ, All, IfOk, IfSome, OnOk, if◌then◌else◌, length, vec_len};
ghost use Rattle.benson_dual.specs.Order.{AreListed, IsOrder};

use src_sink::{Items, NoMemory};
use std::alloc::Global;

/// Appends the point to the lists of the facets that touch it.
fn add_point(facets: &mut [Vec<usize>], places: &[u32], point: usize) -> Result<(), NoMemory> {
    for place in places {
        let place = *place as usize;
        if place < facets.len() {
            facets[place].push(point)?;
        }
    }
    Ok(())
}

/// For each of `count` facets the places of the points that it touches, where for each point those
/// of its facets are given.
fn points_at(
    alloc: Global,
    count: u32,
    points: &[Items<u32>],
) -> Result<Vec<Vec<usize>>, NoMemory> {
    let mut facets = Vec::new(alloc);
    for _facet in 0..count {
        facets.push(Vec::new(alloc))?;
    }
    for point in 0..points.len() {
        add_point(&mut facets, points[point].as_slice(), point)?;
    }
    Ok(facets)
}

/// Counts one facet more at each point that the facet at this place touches.
fn count_at(met: &mut [u32], facets: &[Vec<usize>], place: usize) {
    if place >= facets.len() {
        return;
    }
    for point in &facets[place] {
        let point = *point;
        if point < met.len() {
            met[point] = met[point].saturating_add(1);
        }
    }
}

/// Appends a place, unless it is listed.
fn push_unlisted(order: &mut Items<u32>, listed: bool, place: u32) -> Result<(), NoMemory>
    ensures { OnOk result (order.new ≡ order.old ++ (if listed then [] else place ∷ [])) }
{
    if listed {
        return Ok(());
    }
    order.push(place)
}

/// An order of facets as it grows.
#[derive(Drop)]
struct Walk {
    /// For each facet whether it is listed.
    listed: Vec<bool>,
    /// The places of the listed facets, from 0, in their order.
    order: Items<u32>,
    /// For each point how many of its facets are listed.
    met: Vec<u32>,
}

impl Walk {
    /// Of `count` facets and so many points none is listed.
    fn new(alloc: Global, count: u32, points: usize) -> Result<Walk, NoMemory>
        ensures { IfOk result (λ walk. AreListed count walk.listed.items walk.order) }
    {
        Ok(Walk {
            listed: vec![in alloc; false; count as usize]?,
            order: Items::new(alloc),
            met: vec![in alloc; 0; points]?,
        })
    }

    /// Lists the facet at a place, unless it is listed.
    fn list(&mut self, facet: u32, facets: &[Vec<usize>]) -> Result<(), NoMemory>
        ensures { (count : ℕ) → AreListed count self.old.listed.items self.old.order
            → OnOk result (AreListed count self.new.listed.items self.new.order) }
    {
        let place = facet as usize;
        if place >= self.listed.len() || self.listed[place] {
            return Ok(());
        }
        self.order.push(facet)?;
        self.listed[place] = true;
        count_at(&mut self.met, facets, place);
        Ok(())
    }

    /// Lists the facets at these places, unless they are listed.
    fn list_all(&mut self, places: &[u32], facets: &[Vec<usize>]) -> Result<(), NoMemory>
        ensures { (count : ℕ) → AreListed count self.old.listed.items self.old.order
            → OnOk result (AreListed count self.new.listed.items self.new.order) }
    {
        for place in places {
            self.list(*place, facets)?;
        }
        Ok(())
    }

    /// Of the points at which some facet is not listed that at which the most are, the first of
    /// several.
    fn next_point(&self, points: &[Items<u32>]) -> Option<usize>
        ensures { IfSome result (λ point. point < length points.now) }
    {
        let mut next = None;
        let mut most = 0;
        for point in 0..points.len() {
            if point < self.met.len() {
                let met = self.met[point];
                if (met as usize) < points[point].len() && (met > most || next == None) {
                    next = Some(point);
                    most = met;
                }
            }
        }
        next
    }

    /// Lists the facets at the next point, again and again.
    fn go_on(&mut self, points: &[Items<u32>], facets: &[Vec<usize>]) -> Result<(), NoMemory>
        ensures { (count : ℕ) → AreListed count self.old.listed.items self.old.order
            → OnOk result (AreListed count self.new.listed.items self.new.order) }
    {
        for _turn in 0..points.len() {
            match self.next_point(points) {
                None => return Ok(()),
                Some(point) => self.list_all(points[point].as_slice(), facets)?,
            }
        }
        Ok(())
    }

    /// The order, with the facets that are not listed after the others.
    fn into_order(self, count: u32) -> Result<Items<u32>, NoMemory>
        requires { AreListed count self.listed.items self.order }
        ensures { IfOk result (IsOrder count) }
    {
        let Walk { listed, order, .. } = self;
        let mut order = order;
        for place in 0..count {
            push_unlisted(&mut order, listed[place as usize], place)?;
        }
        Ok(order)
    }
}

/// The order that begins with the facets at this point.
fn order_from(
    alloc: Global,
    count: u32,
    points: &[Items<u32>],
    facets: &[Vec<usize>],
    first: usize,
) -> Result<Items<u32>, NoMemory>
    requires { first < length points.now }
    ensures { IfOk result (IsOrder count) }
{
    let mut walk = Walk::new(alloc, count, points.len())?;
    walk.list_all(points[first].as_slice(), facets)?;
    walk.go_on(points, facets)?;
    walk.into_order(count)
}

/// The order in which the facets were found.
fn order_found(alloc: Global, count: u32) -> Result<Items<u32>, NoMemory>
    ensures { IfOk result (IsOrder count) }
{
    let walk = Walk::new(alloc, count, 0)?;
    walk.into_order(count)
}

/// Orders, and where there is none the order in which the facets were found.
fn at_least_one(
    alloc: Global,
    count: u32,
    orders: Vec<Items<u32>>,
) -> Result<Vec<Items<u32>>, NoMemory>
    requires { All (IsOrder count) orders.items }
    ensures each { IfOk result (λ list. All (IsOrder count) list.items) }
    ensures some { IfOk result (λ list. 1 ≤ vec_len list) }
{
    if !orders.is_empty() {
        return Ok(orders);
    }
    let mut list = Vec::new(alloc);
    list.push(order_found(alloc, count)?)?;
    Ok(list)
}

/// The orders of `count` facets that are to be tried, each as their places from 0. `points` has for
/// each of some points the places of the facets that touch it. From each of the first points, at
/// most `most`, goes one order: first the facets there, then always those at the point that the
/// most listed facets touch, and at the end those that touch none of the points. Where there is no
/// point, it is the order in which the facets were found. An order costs a step for each facet at
/// each point, and for each point that it goes to one for each point.
pub(crate) fn orders(
    alloc: Global,
    count: u32,
    points: &[Items<u32>],
    most: usize,
) -> Result<Vec<Items<u32>>, NoMemory>
    ensures each { IfOk result (λ list. All (IsOrder count) list.items) }
    ensures some { IfOk result (λ list. 1 ≤ vec_len list) }
{
    let facets = points_at(alloc, count, points)?;
    let mut list = Vec::new(alloc);
    for first in 0..points.len().min(most) {
        list.push(order_from(alloc, count, points, &facets, first)?)?;
    }
    at_least_one(alloc, count, list)
}
