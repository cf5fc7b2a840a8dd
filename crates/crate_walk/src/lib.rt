//! A crate from its root: where the files of modules are, and the modules in order.
#![tactic(auto)]

mod event;
mod files;
mod folder;
mod modules;
mod next;
mod progress;
mod scope;
mod sought;
mod step;
mod table;
mod walk;
mod whole_text;

pub use event::{CrateItem, Event, ImportItem, MacroItem, ModuleItem};
pub use files::{Content, Files, Unread};
pub use folder::Folder;
pub use modules::Modules;
pub use scope::{Picks, textual_picks};
pub use step::{Lack, Place, Step};
pub use walk::walk_crate;
pub use whole_text::{FileText, joined};
