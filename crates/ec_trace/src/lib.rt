//! The text of traces: read and written. Only the canonical encoding is read.
#![tactic(auto)]

mod entry;
mod entry_sink;
mod fault;
mod line_cache;
mod lines;
mod opening;
mod packed_bytes;
mod read;
mod reading_laws;
mod short_words;
mod spell;
mod traced;
mod write;
mod write_heading;

pub use ec_heading::{
    DeclKind, Group, HeadFault, Heading, LINE_MAX, Version, lines_have_an_outline,
    outline_lines_lead, read_declaration_is_spelled, read_workers_are_spelled, semaphores_of,
    spelled_declaration_is_read, spelled_workers_are_read,
};
pub use entry_sink::{AuditedWorld, EntrySink};
pub use fault::TraceFault;
pub use lines::Lines;
pub use opening::{TraceOpening, open_trace};
pub use read::{TRACE_MAX, read_entries, read_trace};
pub use reading_laws::{
    entries_are_spelled, failed_read_has_no_fault, fault_of_the_whole, faults_of_entries,
    first_fault_wins, line_fault_is_the_first, lines_lead_to_outlines, other_lines_spell_none,
    read_is_trace, trace_has_one_meaning, trace_is_read, traces_are_prefix_free,
    traces_are_upgraded, traces_have_64_mebibytes_at_most, written_is_read_again,
};
pub use spell::{Spellings, WordTables};
pub use traced::Traced;
pub use write::{
    DecimalCache, put_act, put_cell, put_entry, put_next_entry, put_reply, write_entry, write_trace,
};
pub use write_heading::put_heading;
