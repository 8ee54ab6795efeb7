use rcpsp_model::Entry;
use sched_base::NoMemory;
use std::alloc::Global;

/// A placed job: its number, its mode and its first period.
pub type EntryRow = (u8, u8, u32);

/// The entries of a front, in the order of placing.
///
/// # Errors
///
/// [`NoMemory`] where memory was refused.
pub fn entries(alloc: Global, rows: &[EntryRow]) -> Result<Vec<Entry>, NoMemory> {
    let mut entries = Vec::new(alloc);
    for (job, mode, start) in rows {
        entries.push(Entry {
            job: *job,
            mode: *mode,
            start: *start,
        })?;
    }
    Ok(entries)
}
