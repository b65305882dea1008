ghost use Rattle.std.specs.Prelude.{◌≡◌, ℕ};
ghost use Rattle.std.specs.List.{list_all};
ghost use Rattle.osb_shape.specs.Forms.{is_letter_or_digit, starts_name, continues_name, is_pipeline_name};

fn is_letter_or_digit(c: u8) -> bool
    ensures { result ≡ is_letter_or_digit c }
{
    c.is_ascii_alphanumeric()
}

/// Whether a text has the form of a pipeline's name: 1 to 128 letters, digits, `_`, `.` and `-` of ASCII, the first
/// a letter, a digit or `_`.
pub fn is_pipeline_name(text: &str) -> bool
    ensures form { result ≡ is_pipeline_name text.now }
{
    let bytes = text.as_bytes();
    if bytes.is_empty() || bytes.len() > 128 {
        return false;
    }
    starts_name(bytes[0]) && all_continue(bytes)
}

fn all_continue(bytes: &[u8]) -> bool
    ensures { result ≡ list_all continues_name bytes.now }
{
    bytes.iter().all(|c| continues_name(*c))
}

fn starts_name(c: u8) -> bool
    ensures { result ≡ starts_name c }
{
    is_letter_or_digit(c) || c == b'_'
}

fn continues_name(c: u8) -> bool
    ensures { result ≡ continues_name c }
{
    starts_name(c) || c == b'.' || c == b'-'
}
