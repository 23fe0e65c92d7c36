// Numbers, words and cells of an image: read from bytes, written to bytes, and checked.
#![tactic(auto)]

ghost use Rattle.std.specs.Prelude.{◌≡◌, ◌+◌, ◌-◌, ◌*◌, ◌^◌, ◌≤◌, ◌<◌, length};
ghost use Rattle.window.specs.Memories.{memory};
ghost use Rattle.step.specs.Soundness.{every};
ghost use Rattle.image.specs.Codec.{number, num, digits, dec_many, no_state};
ghost use Rattle.image.specs.Image.{word_codec, cell_codec, cell_length, word_length};
ghost use Rattle.image_bytes.specs.Code.Reading.{field_at, number_at, tags_at, filled_words, filled_cells};
ghost use Rattle.image_bytes.specs.Code.Writing.{laid, put_at, word_bytes, put_cells};
ghost use Rattle.image_bytes.specs.Code.Scanning.{scan, tag_test, tag_refusal};

use image::{CELL_BYTES, WORD_BYTES};
use refusal::Refusal;

// Whose tags they are: the qualities of constants, the tags of registers or the states of data words.
#[derive(Clone, Copy)]
pub enum CellKind {
    Constant,
    Register,
    Data,
}

// The number that bytes are, the highest first.
fn number(bytes: &[u8]) -> u64
    requires { length bytes.now ≤ word_length }
    ensures value { result ≡ number 0 bytes.now }
    ensures below { result < 256 ^ length bytes.now }
{
    let mut v: u64 = 0;
    for b in bytes {
        v = v * 256 + u64::from(*b);
    }
    v
}

// The number that w bytes at `at` are: past the end, of the bytes that are there; of more than 8 bytes 0.
pub fn number_at(s: &[u8], at: usize, w: usize) -> u64
    ensures value { result ≡ number_at w at s.now }
    ensures below { result < 256 ^ w }
{
    if WORD_BYTES < w {
        return 0;
    }
    let from = at.min(s.len());
    if s.len() - from < w {
        return number(&s[from..]);
    }
    // A part of w bytes, and not of the smaller number: where w is a constant the loop over it has no test.
    number(&s[from..from + w])
}

// The word at `at`.
fn word_at(s: &[u8], at: usize) -> u64
    requires { at + word_length ≤ length s.now }
    ensures { result ≡ field_at word_length at s.now }
{
    u64::from_be_bytes([
        s[at],
        s[at + 1],
        s[at + 2],
        s[at + 3],
        s[at + 4],
        s[at + 5],
        s[at + 6],
        s[at + 7],
    ])
}

// Fills `words` from the bytes at `at`; does nothing where they are not all there.
pub fn fill_words(s: &[u8], at: usize, words: &mut [u64])
    ensures { words.new ≡ filled_words at s.now words.old }
{
    if s.len().saturating_sub(at) / WORD_BYTES < words.len() {
        return;
    }
    for (i, word) in words.iter_mut().enumerate() {
        *word = word_at(s, at + WORD_BYTES * i);
    }
}

// Fills `tags` and `words` from the cells at `at`; does nothing where they are not all there, or the two are not of one length.
pub fn fill_cells(s: &[u8], at: usize, tags: &mut [u8], words: &mut [u64])
    ensures { memory tags.new words.new ≡ filled_cells at s.now (memory tags.old words.old) }
{
    let n = words.len();
    if tags.len() != n {
        return;
    }
    if s.len().saturating_sub(at) / CELL_BYTES < n {
        return;
    }
    for i in 0..n {
        let p = at + CELL_BYTES * i;
        tags[i] = s[p];
        words[i] = word_at(s, p + 1);
    }
}

// Puts the w lowest bytes of v at `at`, the highest first; does nothing where they do not all fit.
pub fn put_number(out: &mut [u8], at: usize, w: usize, v: u64)
    ensures { out.new ≡ put_at at (digits w v) out.old }
{
    if out.len() < at {
        return;
    }
    if out.len() - at < w {
        return;
    }
    let mut x = v;
    for k in (0..w).rev() {
        out[at + k] = (x % 256) as u8;
        x /= 256;
    }
}

// Puts a word at `at`.
fn put_word(out: &mut [u8], at: usize, v: u64)
    requires { at + word_length ≤ length out.old }
    ensures { out.new ≡ laid at (digits word_length v) out.old }
{
    out[at..at + WORD_BYTES].copy_from_slice(&v.to_be_bytes());
}

// Puts all the words at `at`; does nothing where they do not all fit.
pub fn put_words(out: &mut [u8], at: usize, words: &[u64])
    ensures { out.new ≡ put_at at (word_bytes words.now) out.old }
{
    if out.len() < at {
        return;
    }
    if (out.len() - at) / WORD_BYTES < words.len() {
        return;
    }
    for (i, word) in words.iter().enumerate() {
        put_word(out, at + WORD_BYTES * i, *word);
    }
}

// Puts the cells of `tags` and `words` at `at`; does nothing where they do not all fit, or the two are not of one length.
pub fn put_cells(out: &mut [u8], at: usize, tags: &[u8], words: &[u64])
    ensures { out.new ≡ put_cells at tags.now words.now out.old }
{
    let n = words.len();
    if tags.len() != n {
        return;
    }
    if out.len() < at {
        return;
    }
    if (out.len() - at) / CELL_BYTES < n {
        return;
    }
    for i in 0..n {
        let p = at + CELL_BYTES * i;
        out[p] = tags[i];
        put_word(out, p + 1, words[i]);
    }
}

// Whether a tag is one of its kind.
fn tag_ok(kind: CellKind, t: u8) -> bool
    ensures { result ≡ tag_test kind t }
{
    match kind {
        CellKind::Constant => t <= 6,
        CellKind::Register => t <= 6 || (8 <= t && t <= 14),
        CellKind::Data => t <= 1,
    }
}

// What a tag that is not one of its kind is refused by.
fn tag_refusal(kind: CellKind) -> Refusal
    ensures { result ≡ tag_refusal kind }
{
    match kind {
        CellKind::Constant => Refusal::ConstantField,
        CellKind::Register | CellKind::Data => Refusal::CellField,
    }
}

// Whether all tags are sound. With no early return, as `all` has one, the loops over tags go many at a time.
pub fn tags_ok(kind: CellKind, tags: &[u8]) -> bool
    ensures { result ≡ every (tag_test kind) tags.now }
{
    let mut good = true;
    for t in tags {
        good &= tag_ok(kind, *t);
    }
    good
}

// Whether the tags of n cells at `at` are sound, of which the last may not be whole.
fn cell_tags_ok(s: &[u8], at: usize, n: usize, kind: CellKind) -> bool
    requires { cell_length * n ≤ (length s.now - at) + word_length }
    ensures { result ≡ every (tag_test kind) (tags_at n at s.now) }
{
    let mut good = true;
    for i in 0..n {
        good &= tag_ok(kind, s[at + CELL_BYTES * i]);
    }
    good
}

// A check goes on with a number of w bytes at its place, which is good or refused by e: the place behind it.
pub fn check_number(
    s: &[u8],
    c: Result<usize, Refusal>,
    w: usize,
    good: bool,
    e: Refusal,
) -> Result<usize, Refusal>
    ensures { result ≡ scan (num w e (λ _. good)).dec s.now c }
{
    let Ok(at) = c else {
        return c;
    };
    let left = s.len().saturating_sub(at);
    if left < w {
        return Err(Refusal::InputEnds);
    }
    if !good {
        return Err(e);
    }
    Ok(s.len() - (left - w))
}

// n words: only their length is tested.
pub fn check_words(s: &[u8], c: Result<usize, Refusal>, n: usize) -> Result<usize, Refusal>
    ensures { result ≡ scan (dec_many (λ _. word_codec) no_state tt n) s.now c }
{
    let Ok(from) = c else {
        return c;
    };
    let left = s.len().saturating_sub(from);
    if left / WORD_BYTES < n {
        return Err(Refusal::InputEnds);
    }
    Ok(s.len() - (left - WORD_BYTES * n))
}

// n cells: refused where a tag that is there is not sound, and then where they are not all there.
pub fn check_cells(
    s: &[u8],
    c: Result<usize, Refusal>,
    n: usize,
    kind: CellKind,
) -> Result<usize, Refusal>
    ensures { result ≡ scan (dec_many (λ _. cell_codec (tag_refusal kind) (tag_test kind)) no_state tt n) s.now c }
{
    let Ok(at) = c else {
        return c;
    };
    let left = s.len().saturating_sub(at);
    let tags = n.min(left.div_ceil(CELL_BYTES));
    if !cell_tags_ok(s, at, tags, kind) {
        return Err(tag_refusal(kind));
    }
    if left / CELL_BYTES < n {
        return Err(Refusal::InputEnds);
    }
    Ok(s.len() - (left - CELL_BYTES * n))
}
