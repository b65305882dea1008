//! Of the definitions alone: calls that do nothing, whose contracts are laws.
ghost use Rattle.std.specs.Prelude.{◌≡◌, List, [], None, codes, map, length};
ghost use Rattle.std.specs.Map.{values_of};
ghost use Rattle.osb_recipe.specs.declared.kinds.StageKind.{StageKind};
ghost use Rattle.osb_manifest.specs.declared.manifests.Manifest.{Manifest};
ghost use Rattle.osb_ident.specs.Idents.{Id, stage_text, manifest_ids};

/// The hashed text of a stage without options and inputs, the first of a pipeline without build pipeline.
pub fn first_noop_text()
    ensures law { (ids : List (List Id)) (kind : StageKind) →
        stage_text ids None None (record { kind = kind; type_text = codes "org.osbuild.noop"; options_text = codes "{}"; inputs = [] })
        ≡ codes "\"org.osbuild.noop\"nullnull{}" }
{}

/// Each stage of each pipeline has an identifier.
pub fn ids_are_of_stages()
    ensures law { (manifest : Manifest) → map length (manifest_ids manifest)
        ≡ map (λ pipeline. length pipeline.stages) (values_of manifest.pipelines) }
{}
