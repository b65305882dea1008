//! Of the definitions alone: calls that do nothing, whose contracts are laws.
ghost use Rattle.std.specs.Prelude.{◌≡◌, ◌↔◌, ℕ, List, Some};
ghost use Rattle.std.specs.Ordering.{nat_cmp};
ghost use Rattle.std.specs.Cmp.Lexicographic.{slice_cmp};
ghost use Rattle.std.specs.declared.cmp.Ordering.TheVariants.{Less};
ghost use Rattle.osb_base.specs.Digests.{IsDigest, digest_text, digest_of};

/// A digest has one text, and no other text gives it.
pub fn digest_of_text()
    ensures law { (text bytes : List ℕ) → (digest_of text ≡ Some bytes) ↔ (IsDigest bytes × (text ≡ digest_text bytes)) }
{}

/// Digests stand in the order of their texts.
pub fn digests_rise_with_their_texts()
    ensures law { (first second a b : List ℕ) → digest_of first ≡ Some a → digest_of second ≡ Some b → slice_cmp nat_cmp first second ≡ Less → slice_cmp nat_cmp a b ≡ Less }
{}
