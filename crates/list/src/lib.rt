// A list of processors read as its set: item by item, each a number or a range, up to the text's end.
#![tactic(auto)]

ghost use Rattle.std.specs.Prelude.{◌≡◌, ◌≤◌, eqb, length, get_or, drop};
ghost use Rattle.model.specs.Rules.{given, first_broken};
ghost use Rattle.form.specs.Parts.{up_to};
ghost use Rattle.list_form.specs.Items.{dash, items_set};
ghost use Rattle.list.specs.Read.{most_list_text, is_comma, number_rules, end_rules, list_answer, items_of, ReadsList};
ghost use Rattle.list.specs.Taken.{TakesLast, TakesItem, all_answer, all_set};

use model::{ListCause, Refusal};
use sets::{span, union};
use typed::Reader;

// The longest text that is read as a list.
pub const MOST_TEXT: usize = 1_024;

// The largest number of a list.
const MOST_LISTED: u32 = 63;

// A list read: the answer, and its set, empty on refusal, as ReadsList says.
#[derive(Clone, Copy)]
pub struct ListReading {
    pub answer: Result<u32, Refusal>,
    pub set: u64,
}

// An item that is no refusal: its numbers.
#[derive(Clone, Copy, Debug, PartialEq, Eq)]
pub struct ItemTaken {
    pub first: u32,
    pub last: u32,
}

// Whether a dash stands where the reader does.
fn is_at_dash(reader: &Reader) -> bool
    ensures { result ≡ eqb (get_or reader.now.text.now reader.now.at 0) dash }
{
    match reader.text.get(reader.at) {
        Some(byte) => *byte == b'-',
        None => false,
    }
}

// A number of so many digits at a place: 60 where it has none, 61 where it is over 63.
fn judge_number(at: usize, digits: usize, value: u32) -> Result<(), Refusal>
    requires { at ≤ most_list_text }
    ensures { result ≡ given tt (first_broken 0 (number_rules at digits value)) }
{
    if digits < 1 {
        return Err(Refusal::OfList(ListCause::ListShape(at as u16)));
    }
    if value > MOST_LISTED {
        return Err(Refusal::OfList(ListCause::ListNumber(at as u16)));
    }
    Ok(())
}

// An item's end: 60 where the reader stands neither at a comma nor at the text's end.
fn judge_end(reader: &Reader) -> Result<(), Refusal>
    requires { length reader.now.text.now ≤ most_list_text }
    ensures { result ≡ given tt (first_broken 0 (end_rules reader.now.at (up_to is_comma (drop reader.now.at reader.now.text.now)))) }
{
    let Some(byte) = reader.text.get(reader.at) else {
        return Ok(());
    };
    if *byte == b',' {
        return Ok(());
    }
    Err(Refusal::OfList(ListCause::ListShape(reader.at as u16)))
}

// The second number of a range, and the item's end: 60, 61, and 62 where it is below the first.
fn take_last(reader: &mut Reader, first: u32) -> Result<ItemTaken, Refusal>
    requires { length reader.old.text.now ≤ most_list_text }
    ensures item { TakesLast first (drop reader.old.at reader.old.text.now) reader.old.at result reader.new.at }
    ensures text { reader.new.text ≡ reader.old.text }
{
    let from = reader.at;
    let last = reader.take_digits();
    judge_number(from, reader.at - from, last)?;
    if last < first {
        return Err(Refusal::OfList(ListCause::ListRange(from as u16)));
    }
    judge_end(reader)?;
    Ok(ItemTaken { first, last })
}

// The item at which the reader stands: a number alone, or a range.
fn take_item(reader: &mut Reader) -> Result<ItemTaken, Refusal>
    requires { length reader.old.text.now ≤ most_list_text }
    ensures item { TakesItem (drop reader.old.at reader.old.text.now) reader.old.at result reader.new.at }
    ensures text { reader.new.text ≡ reader.old.text }
{
    let from = reader.at;
    let first = reader.take_digits();
    judge_number(from, reader.at - from, first)?;
    if is_at_dash(reader) {
        reader.skip();
        return take_last(reader, first);
    }
    judge_end(reader)?;
    Ok(ItemTaken { first, last: first })
}

// The set of a text's items, one behind each comma: each step is an item long, so no range counts it.
fn take_items(text: &[u8]) -> Result<u64, Refusal>
    requires { length text.now ≤ most_list_text }
    ensures { result ≡ given (all_set text.now) (all_answer text.now) }
{
    let mut set: u64 = 0;
    let mut reader = Reader::new(text);
    loop {
        let item = take_item(&mut reader)?;
        let processors = span(item.first, item.last + 1 - item.first);
        set = union(set, processors);
        if reader.at == text.len() {
            return Ok(set);
        }
        reader.skip();
    }
}

// The set of a text: 65, then item by item 60, 61 and 62; the empty text is the empty set.
fn take_list(text: &[u8]) -> Result<u64, Refusal>
    ensures { result ≡ given (items_set (items_of text.now)) (list_answer text.now) }
{
    if text.len() > MOST_TEXT {
        return Err(Refusal::OfList(ListCause::ListLength));
    }
    if text.is_empty() {
        return Ok(0);
    }
    take_items(text)
}

// The set that a list has, and the answer.
pub fn read_list(text: &[u8]) -> ListReading
    ensures { ReadsList text.now result }
{
    match take_list(text) {
        Ok(set) => ListReading { answer: Ok(0), set },
        Err(refusal) => ListReading {
            answer: Err(refusal),
            set: 0,
        },
    }
}
