//! Files, folders and standard output of the host, each behind the trait of the outside that it stands for. They tell
//! nothing of content, and each counts its faults.
#![tactic(auto)]

mod folder;
mod keeper_file;
mod mirror_folder;
mod output;
mod places;
mod readings;
mod shelf_files;
mod stops;
#[cfg(test)]
mod tests;
mod writings;

pub use folder::FolderExporter;
pub use keeper_file::FileKeeper;
pub use mirror_folder::{FolderMirror, item_of};
pub use output::Output;
pub use readings::{load_opened, read_opened};
pub use shelf_files::FileShelf;

/// How often a file is read or written at most until it is given up.
const MOST_TURNS: u64 = 1 << 40;
