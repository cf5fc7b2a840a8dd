//! The files that the program `filgordd` reads: texts, definitions of other texts, and the files of
//! a crate.
#![tactic(auto)]

mod calls;
mod chosen;
mod disk;
mod externs;
mod files;
mod imports;
mod lacking;
mod library;
mod listing;
mod load;
mod module_ends;
mod other;
mod picks;
mod renamed;
mod replaced;
mod replacing;
mod replacing_sources;
mod rounds;
mod same;
mod shown;
mod source;
mod spots;
mod told;
mod walked;
mod whole;
mod written;

pub use calls::Expands;
pub use chosen::{Chosen, chosen_files};
pub use disk::{Disk, code_in};
pub use files::{misused, opened, read_whole, refused, stopped};
pub use lacking::tell_lacks;
pub use listing::listed;
pub use load::{
    Ended, Origin, OtherWords, Others, Sources, fault_words, names_of, origin_of, others_of,
    prelude_of, refusal, sources_of,
};
pub use module_ends::file_text;
pub use replacing::replace_text;
pub use replacing_sources::replace_source;
pub use rounds::whole_from;
pub use shown::{one_line, push_shown};
pub use source::blank_front;
pub use told::fault_lines;
pub use walked::Walked;
pub use whole::{Whole, names_of_whole, origin_of_whole, prelude_of_file, prelude_of_path};
pub use written::tell_written;
