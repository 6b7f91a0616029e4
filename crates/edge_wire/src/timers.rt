//! A wheel of seconds: which places are looked at in which second.
//!
//! A place stands in one row of the wheel at most, and comes to it and goes from it in the same time, however many
//! others stand there. It takes no memory for that.

use std::alloc::{AllocError, Global};

/// How many rows the wheel has, one a second. A second that is further ahead is that of the last row, so that the place
/// is looked at earlier.
const ROWS: u64 = 256;

// Where a place stands.
#[derive(Clone, Copy)]
struct Link {
    // The second of its row; none where it stands in none.
    second: Option<u64>,
    // The places on both sides of it in its row.
    before: Option<usize>,
    behind: Option<usize>,
}

// It stands nowhere.
const NOWHERE: Link = Link {
    second: None,
    before: None,
    behind: None,
};

// The rows of the wheel.
#[derive(Drop)]
pub(crate) struct Timers {
    // The first place of each row.
    rows: Vec<Option<usize>>,
    links: Vec<Link>,
    // Up to which second the places were taken.
    taken: u64,
}

// The row of a second.
fn row_of(second: u64) -> usize {
    (second % ROWS) as usize
}

impl Timers {
    // No place. Takes no memory.
    pub(crate) fn new(alloc: Global) -> Timers {
        Timers {
            rows: Vec::new(alloc),
            links: Vec::new(alloc),
            taken: 0,
        }
    }

    // Makes the rows.
    pub(crate) fn make(&mut self) -> Result<(), AllocError> {
        self.rows.resize(ROWS as usize, None)
    }

    // One place more, which stands nowhere.
    pub(crate) fn grow(&mut self) -> Result<(), AllocError> {
        self.links.push(NOWHERE)?;
        Ok(())
    }

    // The place is looked at in this second, or in an earlier one in which it stands already.
    pub(crate) fn set(&mut self, place: usize, second: u64) {
        let first = self.taken.saturating_add(1);
        let last = self.taken.saturating_add(ROWS - 1);
        let second = second.max(first).min(last);
        if !self.is_set(place, second) {
            self.unlink(place);
            self.link(place, second);
        }
    }

    // The next place whose second came, up to this one. It stands nowhere from now on.
    pub(crate) fn take(&mut self, second: u64) -> Option<usize> {
        for _ in 0..ROWS {
            if let Some(place) = self.first(self.taken) {
                self.unlink(place);
                return Some(place);
            }
            if self.taken >= second {
                return None;
            }
            self.taken = self.taken.saturating_add(1);
        }
        self.taken = second;
        None
    }

    // The first place of a second's row.
    fn first(&self, second: u64) -> Option<usize> {
        match self.rows.get(row_of(second)) {
            Some(first) => *first,
            None => None,
        }
    }

    // Whether the place stands at this second, or at an earlier one.
    fn is_set(&self, place: usize, second: u64) -> bool {
        match self.links.get(place) {
            Some(link) => match link.second {
                Some(set) => set <= second,
                None => false,
            },
            None => false,
        }
    }

    // The place comes to the front of the second's row.
    fn link(&mut self, place: usize, second: u64) {
        let behind = self.first(second);
        if let Some(link) = self.links.get_mut(place) {
            *link = Link {
                second: Some(second),
                before: None,
                behind,
            };
            if let Some(other) = behind {
                self.set_before(other, Some(place));
            }
            self.set_first(second, Some(place));
        }
    }

    // The place goes from its row.
    fn unlink(&mut self, place: usize) {
        let link = self.cut(place);
        let Some(second) = link.second else {
            return;
        };
        match link.before {
            Some(before) => self.set_behind(before, link.behind),
            None => self.set_first(second, link.behind),
        }
        if let Some(behind) = link.behind {
            self.set_before(behind, link.before);
        }
    }

    // Where the place stood: it stands nowhere from now on.
    fn cut(&mut self, place: usize) -> Link {
        match self.links.get_mut(place) {
            Some(link) => {
                let stood = *link;
                *link = NOWHERE;
                stood
            }
            None => NOWHERE,
        }
    }

    fn set_first(&mut self, second: u64, place: Option<usize>) {
        if let Some(first) = self.rows.get_mut(row_of(second)) {
            *first = place;
        }
    }

    fn set_before(&mut self, place: usize, before: Option<usize>) {
        if let Some(link) = self.links.get_mut(place) {
            link.before = before;
        }
    }

    fn set_behind(&mut self, place: usize, behind: Option<usize>) {
        if let Some(link) = self.links.get_mut(place) {
            link.behind = behind;
        }
    }
}
