use crate::Table;
use osb_tree::{Key, List, TaskNo};

/// A pipeline to build: the recipes of its stages, one after another.
#[derive(Debug, Drop)]
pub struct Task {
    pub chain: List<Key>,
    /// The keys of the chain whose trees are to be kept, last first.
    pub marked: List<Key>,
    /// The tasks whose trees it is built with, rising.
    pub deps: List<TaskNo>,
}

/// What is to be built for some builds.
#[derive(Drop)]
pub struct Plan {
    pub table: Table,
    pub tasks: List<Task>,
    /// For each build the tasks of its pipelines, in the order of these.
    pub builds: List<List<TaskNo>>,
}
