// Writes one item after the other into a lent buffer. What has no room is left out, but counted.

#[derive(Drop)]
pub(crate) struct Writer<'a, T> {
    buffer: &'a mut [T],
    at: usize,
}

impl<'a, T: Copy> Writer<'a, T> {
    pub(crate) fn new(buffer: &'a mut [T]) -> Self {
        Writer { buffer, at: 0 }
    }

    // What was written.
    pub(crate) fn written(self) -> &'a [T] {
        let Writer { buffer, at } = self;
        let count = at.min(buffer.len());
        &buffer[..count]
    }

    // What was written so far.
    pub(crate) fn so_far(&self) -> &[T] {
        &self.buffer[..self.at.min(self.buffer.len())]
    }

    // How many items were written.
    pub(crate) fn count(&self) -> usize {
        self.at
    }

    // The item at a place.
    pub(crate) fn at(&self, place: usize) -> Option<T> {
        self.buffer.get(place).copied()
    }

    pub(crate) fn put(&mut self, item: T) {
        self.set(self.at, item);
        self.at = self.at.saturating_add(1);
    }

    pub(crate) fn put_all(&mut self, items: &[T]) {
        for item in items {
            self.put(*item);
        }
    }

    // Writes over an item.
    pub(crate) fn set(&mut self, place: usize, item: T) {
        if place < self.buffer.len() {
            self.buffer[place] = item;
        }
    }

    // Puts an item in before that of a place.
    pub(crate) fn insert(&mut self, place: usize, item: T) {
        self.put(item);
        if place < self.at && self.at <= self.buffer.len() {
            self.buffer[place..self.at].rotate_right(1);
        }
    }

    // Leaves the item of a place out.
    pub(crate) fn remove(&mut self, place: usize) {
        if place < self.at && self.at <= self.buffer.len() {
            self.buffer[place..self.at].rotate_left(1);
            self.at -= 1;
        }
    }

    // Leaves all from a place on out.
    pub(crate) fn truncate(&mut self, place: usize) {
        self.at = self.at.min(place);
    }

    pub(crate) fn swap(&mut self, place: usize, other: usize) {
        if place < self.buffer.len() && other < self.buffer.len() {
            self.buffer.swap(place, other);
        }
    }
}
