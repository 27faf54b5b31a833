//! What can be wrong with a report.

/// The first thing that is wrong with a report.
#[derive(Clone, Copy)]
pub enum CheckFault {
    /// The first line that is against the form, from 1.
    Form(u32),
    /// The last entry of the first step after which the entries aren't legal, from 0.
    Entry(u32),
    /// The least caller that has not come to its end.
    Open(u8),
    /// The first line of the sections that isn't what the journal tells, from 1.
    Text(u32),
    Memory,
}
