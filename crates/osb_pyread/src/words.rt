ghost use Rattle.std.specs.Prelude.{◌≡◌, option_map};
ghost use Rattle.osb_pyread.specs.Steps.{behind};

/// The bytes behind a word.
#[tactic(auto, unfolding(crate::specs::Steps::behind))]
pub fn behind<'a>(word: &[u8], bytes: &'a [u8]) -> Option<&'a [u8]>
    ensures { option_map (λ rest. rest.now) result ≡ behind word.now bytes.now }
{
    bytes.strip_prefix(word)
}
