//! Of the definitions alone: calls that do nothing, whose contracts are laws.
ghost use Rattle.std.specs.Prelude.{◌≡◌, ℕ, ◌<◌, ◌==◌, Bool, IsTrue, List, [], codes, length, All};
ghost use Rattle.std.specs.Cmp.Lexicographic.{pointwise};
ghost use Rattle.std.specs.List.{AllByRecursion, IsDistinct, filter_map};
ghost use Rattle.std.specs.List.Sorted.{IsStrictlyIncreasing};
ghost use Rattle.serde_json.specs.Data.{Data};
ghost use Rattle.osb_manifest.specs.declared.manifests.Manifest.{Manifest};
ghost use Rattle.osb_shape.specs.Values.{list_at};
ghost use Rattle.osb_manifest.specs.Walks.{name_of, refusals_of};
ghost use Rattle.osb_manifest.specs.Right.{IsRightPipeline};
ghost use Rattle.osb_manifest.specs.Manifests.{IsWellFormed};
ghost use Rattle.osb_manifest.specs.Needed.{has_place, needed_places, PassesExports, IsClosed};

/// Where nothing is wrong with a value, its pipelines and their stages are right, so that each has what a manifest is
/// made of.
pub fn nothing_wrong_leaves_right_pipelines()
    ensures law { (whole : Data) → refusals_of whole ≡ [] → AllByRecursion IsRightPipeline (list_at (codes "pipelines") whole) }
{}

/// Where nothing is wrong with a value, the names of its pipelines differ.
pub fn nothing_wrong_leaves_names_apart()
    ensures law { (whole : Data) → refusals_of whole ≡ [] → IsDistinct (pointwise ◌==◌) (filter_map name_of (list_at (codes "pipelines") whole)) }
{}

/// The places that some exports need rise.
pub fn needed_places_rise()
    ensures law { (manifest : Manifest) (exports : List (List ℕ)) → IsStrictlyIncreasing (needed_places manifest exports) }
{}

/// They are places of the manifest's pipelines.
pub fn needed_places_are_places()
    ensures law { (manifest : Manifest) (exports : List (List ℕ)) → All (λ place. place < length manifest.pipelines) (needed_places manifest exports) }
{}

/// They hold each export's place.
pub fn needed_places_hold_exports()
    ensures law { (manifest : Manifest) (exports : List (List ℕ)) → PassesExports manifest exports (has_place (needed_places manifest exports)) }
{}

/// With a pipeline they hold what it is built with.
pub fn needed_places_are_closed()
    ensures law { (manifest : Manifest) (exports : List (List ℕ)) → IsWellFormed manifest → IsClosed manifest (has_place (needed_places manifest exports)) }
{}

/// They are the least such set.
pub fn needed_places_are_least()
    ensures law { (manifest : Manifest) (exports : List (List ℕ)) (test : ℕ → Bool) → PassesExports manifest exports test → IsClosed manifest test → All (λ place. IsTrue (test place)) (needed_places manifest exports) }
{}
