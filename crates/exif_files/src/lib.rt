//! Files that are written whole or not at all, and runs in which each file is changed once.
//!
//! A [`FileSystem`] is a device that contracts can see: it knows each state that it has been in. So
//! a contract says what each moment of a call leaves, whatever fails and whenever the process is
//! killed. [`HostFiles`] is that of the system.
#![tactic(auto)]

mod abandoned;
mod changing;
mod creating;
mod failure;
mod folder;
mod host;
mod outcome;
mod power;
mod replacing;
mod running;
mod system;
mod taking;
mod temporary;

pub use abandoned::remove_abandoned;
pub use changing::{Edit, EditError, Edited, Failure, Keeping, Report, change};
pub use creating::create_new;
pub use failure::WriteError;
pub use folder::folder_of;
pub use host::HostFiles;
pub use outcome::Status;
pub use power::{loss_law, new_loss_law};
pub use replacing::replace;
pub use running::{Reporter, change_all};
pub use system::FileSystem;
pub use taking::{finish_move, move_new};
