//! Of the definitions alone: calls that do nothing, whose contracts are laws.
ghost use Rattle.std.specs.Prelude.{◌≡◌, ℕ, List, Some};
ghost use Rattle.serde_json.specs.Data.{Data};
ghost use Rattle.osb_pyjson.specs.PyText.{py_data};

/// Values with the same text are equal.
pub fn py_text_tells_values()
    ensures law { (a b : Data) (text : List ℕ) → py_data a ≡ Some text → py_data b ≡ Some text → a ≡ b }
{}
