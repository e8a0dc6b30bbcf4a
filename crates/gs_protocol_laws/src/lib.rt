//! What a user of the protocol is promised: writes are read back, GETs are whole, what was given up leaves
//! nothing.
#![tactic(auto)]

mod laws;

pub use laws::{
    all_graphs_are_read, conditions_lose_nothing, gets_give_their_lines,
    given_up_uploads_leave_nothing, idle_seats_are_told, late_writes_were_late,
    lines_of_a_dataset_are_in_order, lines_with_names_are_lines, numbers_are_of_commits,
    only_new_graphs_are_named, only_writes_change, patches_and_deletes_are_read_back,
    statuses_tell_what_was_there, uploads_are_read_back, writes_are_read_back, writes_stay,
};
