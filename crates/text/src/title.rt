// Reading the first line.
ghost use Rattle.std.specs.Prelude.{◌≡◌, option_map};
ghost use Rattle.text.specs.Strict.{after_at, title_at, is_fitting_title};
ghost use Rattle.text.specs.Told.{told};

use crate::number::read_decimal;

// What the first line of a saved book says: so many fields, so many entries.
#[derive(Clone, Copy)]
pub struct Title {
    pub fields: usize,
    pub entries: usize,
}

// A word, then a decimal.
fn read_after<'a>(text: &'a [u8], word: &[u8]) -> Option<(usize, &'a [u8])>
    ensures { told result ≡ after_at word.now text.now }
{
    read_decimal(text.strip_prefix(word)?)
}

// Fields 1 to 4, entries 0 to 4,096.
fn title_fits(fields: usize, entries: usize) -> bool
    ensures { result ≡ is_fitting_title fields entries }
{
    matches!(fields, 1..=4) && entries <= 4096
}

// Its two words, each with a number behind it, and the LF; and what stands behind the line.
pub fn read_title(text: &[u8]) -> Option<(Title, &[u8])>
    ensures { told (option_map (λ t. ((t.0.fields, t.0.entries), t.1)) result) ≡ title_at text.now }
{
    let (fields, behind) = read_after(text, b"book=1 fields=")?;
    let (entries, end) = read_after(behind, b" entries=")?;
    match end {
        [b'\n', rest @ ..] if title_fits(fields, entries) => {
            Some((Title { fields, entries }, rest))
        }
        _ => None,
    }
}
