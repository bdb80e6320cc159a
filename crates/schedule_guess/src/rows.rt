// Lists of items, one for each row, laid one after another.
use std::alloc::{AllocError, Global};

#[derive(Clone, Copy)]
struct Span {
    start: u32,
    end: u32,
}

#[derive(Drop)]
pub struct Rows<T> {
    spans: Vec<Span>,
    items: Vec<T>,
}

impl<T: Copy + Drop> Rows<T> {
    /// So many rows, numbered from 0, of these pairs of row and item. Items of a row stand in the order of the pairs. An item
    /// of a row that is not there is in no row.
    pub fn of(alloc: Global, count: u32, pairs: &[(u32, T)]) -> Result<Rows<T>, AllocError> {
        let mut spans = vec![in alloc; Span { start: 0, end: 0 }; count as usize]?;
        let mut items = Vec::with_capacity(alloc, pairs.len())?;
        for (row, item) in pairs {
            add_one(&mut spans, *row);
            items.push(*item)?;
        }
        lay_out(&mut spans);
        let mut rows = Rows { spans, items };
        for (row, item) in pairs {
            rows.put(*row, *item);
        }
        Ok(rows)
    }

    // Puts an item at the end of a row.
    fn put(&mut self, row: u32, item: T) {
        if let Some(span) = self.spans.get_mut(row as usize) {
            if let Some(place) = self.items.get_mut(span.end as usize) {
                *place = item;
                span.end = span.end.wrapping_add(1);
            }
        }
    }

    /// The items of a row; none where the row is not there.
    pub fn row(&self, row: u32) -> &[T] {
        match self.spans.get(row as usize) {
            Some(span) => self
                .items
                .get(span.start as usize..span.end as usize)
                .unwrap_or(&[]),
            None => &[],
        }
    }

    /// All items, row after row.
    pub fn items(&self) -> &[T] {
        &self.items
    }
}

// One item more in a row. Until the rows are laid out, the end of each is the number of its items.
fn add_one(spans: &mut [Span], row: u32) {
    if let Some(span) = spans.get_mut(row as usize) {
        span.end = span.end.wrapping_add(1);
    }
}

// Gives each row its place after the rows before it, and no item yet.
fn lay_out(spans: &mut [Span]) {
    let mut start: u32 = 0;
    for span in spans.iter_mut() {
        let len = span.end;
        *span = Span { start, end: start };
        start = start.wrapping_add(len);
    }
}
