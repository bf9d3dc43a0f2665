//! The commands of SMT-LIB 2.6 scripts, by their shapes.
//!
//! [`read_command`] takes the tree of a top item and gives the command that it is, or the code of
//! its first fault. Terms and sorts inside a command are given on as trees: what they say is read
//! elsewhere.
//!
//! `command_of` of `specs/Forms.antt` says which trees are commands. [`codes_are_by_the_head`] says
//! which codes come by an item's head alone, [`commands_have_parts`] what stands behind it,
//! [`commands_have_no_other_parts`] that nothing else does, and [`names_stand_between_bars`] what a
//! name is.
#![tactic(auto)]

mod command;
mod forms;
mod laws;
mod reader;

pub use command::Command;
pub use laws::{
    codes_are_by_the_head, commands_have_no_other_parts, commands_have_parts,
    names_stand_between_bars,
};
pub use reader::read_command;

#[cfg(test)]
mod tests;
