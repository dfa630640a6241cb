//! One walk along the kids of a graph, which judges each group of places that lead to each other
//! after all others that the group leads to (Tarjan's strongly connected components). It finds in
//! one go what the plain form, rounds from no marks, finds a group at a time: on the graph of a
//! counter of 123,711 nodes rounds alone took about 1.1 s, and with the walk 0.11 s
//! (docs/ARCHITECTURE.md). Nothing is proved here but safety and an end: marks are checked before
//! they are taken, so that a fault here can cost time and change no answer.

use crate::group::{JUDGED, cause_of, condemn};
use crate::linked_graph::LinkedGraph;
use crate::marks::{Marks, unmarked};
use crate::place::kids_at;
use source_sink::Memory;
use std::alloc::Global;
use tableau_rules::{Edges, Kids};

// What is still to be done of the walk.
#[derive(Clone, Copy, Drop)]
enum Step {
    // To go on from the place, if it was not met yet.
    Enter(u32),
    // To close its group, if it is the first of it, since all that it leads to was met.
    Leave(u32),
}

// How far the walk is. Its steps stand in a list, since calls could go as deep as the graph has
// nodes. The low of a place is 0 where it was not met, and where it is open the first position
// among the open places, counted from 1, that it is known to lead to.
#[derive(Drop)]
struct Walk {
    steps: Vec<Step>,
    open: Vec<u32>,
    lows: Vec<u32>,
}

// The low of a place.
fn low_of(lows: &[u32], place: u32) -> u32 {
    match lows.get(place as usize) {
        Some(low) => *low,
        None => JUDGED,
    }
}

// The least low of the kids.
fn least_low(lows: &[u32], kids: Kids) -> u32 {
    match kids {
        Kids::Leaf => JUDGED,
        Kids::One(a) => low_of(lows, a),
        Kids::Two(a, b) => low_of(lows, a).min(low_of(lows, b)),
    }
}

// Sets the low of a place.
fn set_low(lows: &mut [u32], place: u32, low: u32) {
    if (place as usize) < lows.len() {
        lows[place as usize] = low;
    }
}

// Says of the group that it is judged.
fn close(lows: &mut [u32], group: &[u32]) {
    'group: for &place in group {
        set_low(lows, place, JUDGED);
    }
}

impl Walk {
    fn enter(&mut self, links: &[Edges], place: u32) -> Result<(), Memory> {
        if low_of(&self.lows, place) != 0 {
            return Ok(());
        }
        self.open.push(place)?;
        let position = u32::try_from(self.open.len()).unwrap_or(JUDGED);
        set_low(&mut self.lows, place, position);
        self.steps.push(Step::Leave(place))?;
        match kids_at(links, place) {
            Kids::Leaf => {}
            Kids::One(a) => self.steps.push(Step::Enter(a))?,
            Kids::Two(a, b) => {
                self.steps.push(Step::Enter(b))?;
                self.steps.push(Step::Enter(a))?;
            }
        }
        Ok(())
    }

    fn leave(&mut self, linked_graph: &LinkedGraph<'_>, place: u32, marks: &mut Marks) {
        let own = low_of(&self.lows, place);
        let low = least_low(&self.lows, kids_at(linked_graph.links, place));
        if low < own {
            set_low(&mut self.lows, place, low);
        } else {
            self.judge(linked_graph, (own as usize).saturating_sub(1), marks);
        }
    }

    // Judges the group that is open from the position on, counted from 0.
    fn judge(&mut self, linked_graph: &LinkedGraph<'_>, start: usize, marks: &mut Marks) {
        let Some(group) = self.open.get(start..) else {
            return;
        };
        if let Some(cause) = cause_of(linked_graph, group, &self.lows, &marks.alive) {
            condemn(group, cause, marks);
        }
        close(&mut self.lows, group);
        self.open.truncate(start);
    }
}

/// Marks that are right of all that goes, if nothing here is wrong.
pub(crate) fn proposed(alloc: Global, linked_graph: &LinkedGraph<'_>) -> Result<Marks, Memory> {
    let count = linked_graph.links.len();
    let mut marks = unmarked(alloc, u32::try_from(count).unwrap_or(0))?;
    let mut walk = Walk {
        steps: vec![in alloc; Step::Enter(0)]?,
        open: Vec::new(alloc),
        lows: vec![in alloc; 0u32; count]?,
    };
    // Each place is left once, and but for the first it is entered over links, of which it has two at most.
    'steps: for _step in 0..count.saturating_mul(3).saturating_add(1) {
        match walk.steps.pop() {
            Some(Step::Enter(place)) => walk.enter(linked_graph.links, place)?,
            Some(Step::Leave(place)) => walk.leave(linked_graph, place, &mut marks),
            None => break,
        }
    }
    Ok(marks)
}
