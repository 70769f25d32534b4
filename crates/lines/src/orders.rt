// What a line asks for: a command, which has a row of a table, and the numbers after the line's first word. A row says how its command is
// typed: the command, and a name for each number.
ghost use Rattle.std.specs.Prelude.{◌≡◌, true, ◌⊎◌, ◌≤◌, ◌<◌, IfOk, IfSome};
ghost use Rattle.lines.specs.Text.{bytes_of, same_bytes, value_or_none, number_said, no_value};
ghost use Rattle.lines.specs.declared.wrong.Wrong.TheVariants.{LongName};
ghost use Rattle.lines.specs.Orders.{Asks, Numbered, Ordered, Says, file_name, start_of, with_number, number_at, offset_at};

use crate::listening::Heard;
use crate::text::{Span, is_word, next_word, number_of};
use crate::wrong::{Wrong, show_bad};
use std::ops::RangeInclusive;

// The most numbers of a command, but for a list.
const NUMBERS: usize = 8;

// A line has fewer words than this.
const WORDS: usize = 65536;

// The longest name of a file, so that a name beside it is a path too.
const MOST_NAME: usize = 4000;

// A command with its numbers.
#[derive(Clone, Copy)]
pub struct Order<C> {
    pub command: C,
    pub numbers: [u32; NUMBERS],
    // Of a list: how many entries there are.
    pub entries: usize,
    // Where in the line the words after its first stand.
    pub from: usize,
}

impl<C: Copy> Order<C> {
    #[tactic(auto, unfolding(crate::specs::Orders::start_of))]
    fn to(command: C, from: usize) -> Self
        ensures { result ≡ start_of command from }
    {
        Order {
            command,
            numbers: [0u32; NUMBERS],
            entries: 0,
            from,
        }
    }

    // Outside nothing changes. Stays a test of the place: of what `get_mut` lends, a proof keeps the length alone.
    #[tactic(auto, using(crate::specs::OrderSteps::with_there, crate::specs::OrderSteps::with_past), unfolding(crate::specs::Orders::with_number))]
    fn with(mut self, place: usize, value: u32) -> Self
        ensures { result ≡ with_number self place value }
    {
        if place < NUMBERS {
            self.numbers[place] = value;
        }
        self
    }

    // The number at a place, from 0; 0 where there is none.
    // Stays a number: the definitions read 0 there.
    #[tactic(auto, using(crate::specs::OrderSteps::number_read))]
    pub fn number(self, place: usize) -> u32
        ensures { result ≡ number_at self place }
    {
        self.numbers.get(place).copied().unwrap_or(0)
    }

    // An offset. The largest number that one can be stands for every larger one: both are refused.
    #[tactic(auto, using(crate::specs::OrderSteps::offset_of))]
    pub fn offset(self, place: usize) -> u16
        ensures { result ≡ offset_at self place }
    {
        u16::try_from(self.number(place)).unwrap_or(u16::MAX)
    }
}

// What a word is if it does not suit the name that stands for it; it tells the kind of the name.
// Stays tests in a row: of a table the clause would have to say which row a search found, and that no other has that name.
// Stays `Wrong`: an enum of kinds would have the same variants, and a `From` beside them.
#[tactic(auto, unfolding(crate::specs::Text::next_word, crate::specs::Text::pass_over, crate::specs::Text::leading, crate::specs::Text::is_blank, crate::specs::Text::bytes_from))]
fn unsuited(usage: &[u8], name: Span) -> Wrong
    ensures { (result ≡ LongName) → same_bytes (bytes_of usage.now name) file_name ≡ true }
{
    if is_word(usage, name, b"S") {
        return Wrong::NoEndSide;
    }
    if is_word(usage, name, b"SIDE") {
        return Wrong::NoSide;
    }
    if is_word(usage, name, b"FLAG") {
        return Wrong::NoFlag;
    }
    if is_word(usage, name, b"RELEASE") {
        return Wrong::NoRelease;
    }
    if is_word(usage, name, b"SLOT") {
        return Wrong::NoSlot;
    }
    if is_word(usage, name, b"MICROSECONDS") {
        return Wrong::NoTime;
    }
    if is_word(usage, name, b"NAME") {
        return Wrong::LongName;
    }
    Wrong::NoNumber
}

// The numbers that suit.
fn suiting(unsuited: Wrong) -> RangeInclusive<u32> {
    match unsuited {
        Wrong::NoSide => 0..=2,
        Wrong::NoRelease => 1..=2,
        Wrong::NoEndSide | Wrong::NoFlag => 0..=1,
        Wrong::NoSlot => 0..=1023,
        Wrong::NoTime => 0..=65535,
        _ => 0..=u32::MAX,
    }
}

// The number that a word says where this name stands for it, or what is wrong with the word. A name of a file says 0.
fn value_as(text: &[u8], word: Span, usage: &[u8], name: Span) -> Result<u32, Wrong>
    ensures { IfOk result (λ value. Says (bytes_of text.now word) (bytes_of usage.now name) value) }
{
    let wrong = unsuited(usage, name);
    if wrong == Wrong::LongName {
        return if word.len() <= MOST_NAME {
            Ok(0)
        } else {
            Err(wrong)
        };
    }
    number_of(text, word)
        .filter(|value| suiting(wrong).contains(value))
        .ok_or(wrong)
}

// An order with the numbers after a line's first word, one for each name after the row's first word. The row and the text stay parameters, here and in `with_list`: a struct
// of them would be made once, in `order_by`, and taken apart at once.
#[tactic(auto, using(crate::specs::OrderSteps::reading_end))]
fn with_numbers<C: Copy>(
    command: C,
    text: &[u8],
    from: usize,
    usage: &[u8],
) -> Result<Order<C>, Wrong>
    ensures { IfOk result (λ order. Numbered command text.now from usage.now order) }
{
    let first = next_word(usage, 0);
    let mut order = Order::to(command, from);
    let mut word = next_word(text, from);
    let mut name = next_word(usage, first.to);
    for place in 0..NUMBERS + 1 {
        if word.is_empty() != name.is_empty() {
            return Err(Wrong::WordCount);
        }
        if word.is_empty() {
            return Ok(order);
        }
        order = order.with(place, value_as(text, word, usage, name)?);
        word = next_word(text, word.to);
        name = next_word(usage, name.to);
    }
    Err(Wrong::WordCount)
}

// An order with a list after a line's first word: so many numbers for each entry, with the names of the row's first entry, and as many
// entries as there are.
#[tactic(auto, using(crate::specs::OrderSteps::asks_start))]
fn with_list<C: Copy>(
    command: C,
    text: &[u8],
    from: usize,
    usage: &[u8],
    size: usize,
) -> Result<Order<C>, Wrong>
    requires { 0 < size }
    ensures { IfOk result (λ order. Asks command from order) }
{
    let first = next_word(usage, 0);
    let mut order = Order::to(command, from);
    let mut word = next_word(text, from);
    let mut name = next_word(usage, first.to);
    for count in 0..WORDS {
        if word.is_empty() {
            if count % size != 0 {
                return Err(Wrong::WordCount);
            }
            order.entries = count / size;
            return Ok(order);
        }
        value_as(text, word, usage, name)?;
        word = next_word(text, word.to);
        name = if (count + 1) % size == 0 {
            next_word(usage, first.to)
        } else {
            next_word(usage, name.to)
        };
    }
    Err(Wrong::WordCount)
}

// The order of a line that has the command of this row for its first word, and further words from a place on; if something is wrong with the line, that is said, and there is
// no order. The size is how many numbers an entry of the command's list has, 0 where it has no list.
// Stays a number: in an Option it would need a proof that it is more than 0.
pub fn order_by<C: Copy>(
    rt: &impl Print,
    row: (C, &[u8]),
    size: usize,
    heard: Heard,
    from: usize,
) -> Option<Order<C>>
    ensures { IfSome result (λ order. Ordered row.entry.0 size heard.entry.text.now from row.entry.1.now order) }
{
    let (command, usage) = row;
    let ordered = if 0 < size {
        with_list(command, heard.text, from, usage, size)
    } else {
        with_numbers(command, heard.text, from, usage)
    };
    match ordered {
        Ok(order) => Some(order),
        Err(wrong) => {
            show_bad(rt, heard.number, wrong, usage);
            None
        }
    }
}
