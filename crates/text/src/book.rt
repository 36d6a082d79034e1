// Reading a whole text: the first line, then entry lines that rise, then nothing.
ghost use Rattle.std.specs.Prelude.{◌≡◌, ◌==◌, List, ℕ, ◌≤◌, take, position};
ghost use Rattle.std.proofs.Math.Option.{some, none};
ghost use Rattle.model.specs.Text.{body, cut_line, parse, rises};
ghost use Rattle.text.specs.Told.{last_of, summed};

use crate::Broken;
use crate::line::read_line;
use crate::title::{Title, read_title};
use cells::order::in_order;

// The place of the first LF, if there is one.
fn line_end(text: &[u8]) -> Option<usize>
    ensures { result ≡ position (λ b. b == 10) text.now }
{
    text.iter().position(|b| *b == b'\n')
}

// What stands behind the first line.
pub fn first_entry(text: &[u8]) -> &[u8]
    requires { (c : List ℕ × List ℕ) × (cut_line text.now ≡ some c) }
    ensures { (c : List ℕ × List ℕ) → cut_line text.now ≡ some c → result.now ≡ c.1 }
{
    let end = line_end(text).unwrap();
    &text[end + 1..]
}

// Whether an entry comes after the one in front of it, if there is one.
fn follows(last: Option<[i64; 4]>, next: [i64; 4], k: usize) -> bool
    requires { k ≤ 4 }
    ensures { result ≡ rises (last_of k last) (take k next) }
{
    match last {
        None => true,
        Some(last) => in_order(&last[..k], &next[..k]).is_lt(),
    }
}

// So many entry lines, then the end of the text; line numbers count from 2.
fn read_body(text: &[u8], title: Title) -> Result<Title, Broken>
    requires { ((1 ≤ title.fields) × (title.fields ≤ 4)) × (title.entries ≤ 4096) }
    ensures { result ≡ summed (body title.entries title.fields 2 none text.now) }
{
    let Title {
        fields: k,
        entries: n,
    } = title;
    let mut last = None;
    let mut rest = text;
    for i in 0..n {
        let here = Broken { line: i + 2 };
        let (f, behind) = read_line(rest, k).ok_or(here)?;
        if !follows(last, f, k) {
            return Err(here);
        }
        last = Some(f);
        rest = behind;
    }
    if !rest.is_empty() {
        return Err(Broken { line: n + 2 });
    }
    Ok(title)
}

// The verdict on a text, in one pass.
pub fn take_apart(text: &[u8]) -> Result<Title, Broken>
    ensures { result ≡ summed (parse text.now) }
{
    let (title, body) = read_title(text).ok_or(Broken { line: 1 })?;
    read_body(body, title)
}
