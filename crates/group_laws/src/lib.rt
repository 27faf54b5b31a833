//! The laws of groups: a journal of some callers on some roots may stand behind any other that left these callers and roots
//! as they were at the opening. So journals of groups that share no caller and no root, one after the other, are one.
//!
//! Definitions: `specs/Groups.antt`.
#![tactic(auto)]

mod groups;

pub use groups::{
    a_group_goes_on_by_itself, each_walk_stays_in_its_roots, journals_of_groups_are_one,
};
