// Lines, words and numbers in a text. Blanks, tabs and newlines stand between words.
ghost use Rattle.std.specs.Prelude.{◌≡◌, ◌-◌, leb, get_or, not, position};
ghost use Rattle.std.specs.Bool.{beq};
ghost use Rattle.lines.specs.Text.{is_blank, bytes_of, part_of, line_of, pass_over, next_word, LineEnd, same_bytes, no_value, value_or_none, with_digit, number_said, number_or_zero};

// A part of a text: a word up to the blank after it, or a line up to its newline. Stays two places beside the text, no slice: the next word is sought from its end on.
// Stays without its text: a struct with it would lend the reader's buffer, which is filled again while a line's places are kept.
#[derive(Clone, Copy)]
pub struct Span {
    pub from: usize,
    pub to: usize,
}

// The byte at a place; 0 outside. Stays a number: the definitions read 0 there.
pub fn byte_at(text: &[u8], at: usize) -> u8
    ensures { result ≡ get_or text.now at 0 }
{
    text.get(at).copied().unwrap_or(0)
}

// A part of a text; an empty one where there is no such part.
#[tactic(auto, using(crate::specs::TextSteps::part_within, crate::specs::TextSteps::part_missing))]
pub fn part(text: &[u8], span: Span) -> &[u8]
    ensures { result.now ≡ part_of text.now span }
{
    text.get(span.from..span.to).unwrap_or(&[])
}

// A line without a carriage return at its end.
#[tactic(auto, using(crate::specs::TextSteps::line_cut, crate::specs::TextSteps::line_empty, crate::specs::TextSteps::line_whole))]
pub fn line_of(text: &[u8]) -> &[u8]
    ensures { result.now ≡ line_of text.now }
{
    match text {
        [line @ .., b'\r'] => line,
        _ => text,
    }
}

// The same of a part of a text.
pub fn line_part(text: &[u8], span: Span) -> &[u8]
    ensures { result.now ≡ line_of (part_of text.now span) }
{
    line_of(part(text, span))
}

// The first newline between two places, or the second of them.
pub fn line_end(text: &[u8], from: usize, to: usize) -> usize
    ensures { LineEnd text.now from to result }
{
    (from..to)
        .find(|at| byte_at(text, *at) == b'\n')
        .unwrap_or(to)
}

#[tactic(auto, unfolding(crate::specs::Text::is_blank))]
fn is_blank(byte: u8) -> bool
    ensures { result ≡ is_blank byte }
{
    matches!(byte, b' ' | b'\t' | b'\n')
}

// The first byte that is no blank, or the first one.
fn first_other(text: &[u8], blanks: bool) -> Option<usize>
    ensures { result ≡ position (λ b. not (beq (is_blank b) blanks)) text.now }
{
    text.iter().position(|byte| is_blank(*byte) != blanks)
}

// The end of the blanks from a place on, or of what is no blank.
#[tactic(auto, unfolding(crate::specs::Text::pass_over), using(crate::specs::TextSteps::leading_read, crate::specs::TextSteps::leading_short, std::proofs::lemmas::List::take_rest, crate::specs::TextSteps::none_leading))]
fn pass_over(text: &[u8], from: usize, blanks: bool) -> usize
    ensures { result ≡ pass_over text.now from blanks }
{
    let Some(rest) = text.get(from..) else {
        return from;
    };
    from + first_other(rest, blanks).unwrap_or(rest.len())
}

// The next word from a place on; empty where no word is left.
#[tactic(auto, unfolding(crate::specs::Text::next_word))]
pub fn next_word(text: &[u8], from: usize) -> Span
    ensures { result ≡ next_word text.now from }
{
    let start = pass_over(text, from, true);
    Span {
        from: start,
        to: pass_over(text, start, false),
    }
}

impl Span {
    pub fn is_empty(self) -> bool
        ensures { result ≡ leb self.to self.from }
    {
        self.to <= self.from
    }

    pub fn len(self) -> usize
        ensures { result ≡ self.to - self.from }
    {
        self.to.saturating_sub(self.from)
    }
}

// Whether a word of one text is a word of another. Stays a test of the places, not `==` of two parts: a span may lie outside its text and reads 0 there.
#[tactic(auto, using(crate::specs::TextSteps::same_unlong))]
pub fn same_word(text: &[u8], word: Span, other: &[u8], name: Span) -> bool
    ensures { result ≡ same_bytes (bytes_of text.now word) (bytes_of other.now name) }
{
    word.len() == name.len()
        && (0..word.len()).all(|k| byte_at(text, word.from + k) == byte_at(other, name.from + k))
}

// Whether a word of a text is this one.
pub fn is_word(text: &[u8], word: Span, name: &[u8]) -> bool
    ensures { result ≡ same_bytes (bytes_of text.now word) (bytes_of name.now (next_word name.now 0)) }
{
    same_word(text, word, name, next_word(name, 0))
}

// One digit more, as long as the number is at most 4,294,967,295.
// Stays a test and a subtraction: tried with `to_digit` of the library, and the check found no proof.
#[tactic(auto, unfolding(crate::specs::Text::with_digit, crate::specs::Text::is_digit))]
fn with_digit(value: u32, byte: u8) -> Option<u32>
    ensures { value_or_none result ≡ with_digit value byte }
{
    if !byte.is_ascii_digit() {
        return None;
    }
    value.checked_mul(10)?.checked_add((byte - b'0') as u32)
}

// The number that a word says in decimal digits. Stays a loop: `parse` takes a sign, and no empty word.
#[tactic(auto, using(crate::specs::TextSteps::said_number, crate::specs::TextSteps::said_next, crate::specs::TextSteps::said_end, crate::specs::TextSteps::said_stops))]
pub fn number_of(text: &[u8], word: Span) -> Option<u32>
    ensures { value_or_none result ≡ number_said (bytes_of text.now word) }
{
    let mut value: u32 = 0;
    for at in word.from..word.to {
        value = with_digit(value, byte_at(text, at))?;
    }
    Some(value)
}

// The same; 0 where it says none. Stays a number: the line's words were read as numbers before.
#[tactic(auto, unfolding(crate::specs::Text::number_or_zero))]
pub fn number_or_zero(text: &[u8], word: Span) -> u32
    ensures { result ≡ number_or_zero (bytes_of text.now word) }
{
    number_of(text, word).unwrap_or(0)
}
