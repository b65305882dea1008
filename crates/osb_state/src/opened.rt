/// What a cache was opened with: how many entries it kept, their bytes together, and how many were too much.
#[derive(Clone, Copy, Debug, PartialEq, Eq)]
pub struct Opened {
    pub kept: u64,
    pub bytes: u64,
    pub evicted: u64,
}
