use osb_base::{Digest, List, Text};

/// The items that one manifest lists.
#[derive(Debug, Drop)]
pub struct Items {
    /// Those that it holds itself, each with its base64 text.
    pub inline: List<(Digest, Text)>,
    /// Those that are to be had elsewhere.
    pub curl: List<Digest>,
}
