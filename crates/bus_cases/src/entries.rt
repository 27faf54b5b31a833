//! Worked examples of journal lines that are read back.
use bus_journal::{entry_text, read_entry};
use case_parts::Page;
use i2c_base::Entry;
use std::alloc::Global;

/// Reads a line of a journal back, and puts the line of the entry that it tells, or that it tells none.
pub fn put_entry(page: &mut Page, alloc: Global, line: &str) {
    match read_entry(alloc, line.as_bytes()) {
        Ok(entry) => put_text(page, alloc, &entry),
        Err(_) => {
            page.put("no entry: ");
            page.put_line(line);
        }
    }
}

// The line of an entry.
fn put_text(page: &mut Page, alloc: Global, entry: &Entry) {
    match entry_text(alloc, entry) {
        Ok(text) => {
            page.put("entry: ");
            page.put_line(str::from_utf8(text.as_slice()).unwrap_or("no text"));
        }
        Err(_) => page.require(false),
    }
}
