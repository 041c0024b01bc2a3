// The record that the words of a line write, as its kind and its values.
use crate::problem::Problem;
use crate::request::ends;
use record::Kind;
use record_text::{HEADER, field_table, kind_named, own_lines};

// The kind and the values of a record, and the number of the word after them.
#[derive(Clone, Copy)]
pub(crate) struct Given {
    pub(crate) kind: Kind,
    pub(crate) values: [i64; 25],
    pub(crate) next: usize,
}

// The kind whose name is word i of a line.
pub(crate) fn kind_at(line: &[u8], i: usize) -> Option<Kind> {
    kind_named(lines::word(line, i))
}

// The number of a kind's field with this name: one of the header's six, or one of its own, which follow them.
fn field_named(kind: Kind, name: &[u8]) -> Option<usize> {
    let fields = field_table();
    let own = own_lines(kind);
    lines::named(&fields, name, 0, HEADER).or_else(|| {
        lines::named(&fields, name, own.start, own.len()).map(|i| i.wrapping_add(HEADER))
    })
}

// The number of the field that a word is for, and the digits of its number. A word `NAME=NUMBER` is for the field with that name, any other for
// field i.
fn field_of(kind: Kind, word: &[u8], i: usize) -> Option<(usize, &[u8])> {
    match word.iter().position(|b| *b == b'=') {
        Some(at) => Some((field_named(kind, &word[..at])?, &word[at + 1..])),
        None if i < HEADER.wrapping_add(own_lines(kind).len()) => Some((i, word)),
        None => None,
    }
}

// The values before any is given: 0, but for those that make the kind. Value 5 is the subframe number; the first two fields of a page are its IDs.
fn first_values(kind: Kind) -> [i64; 25] {
    let mut values = [0i64; 25];
    match kind {
        Kind::Subframe1 => values[5] = 1,
        Kind::Subframe2 => values[5] = 2,
        Kind::Subframe3 => values[5] = 3,
        Kind::Almanac => {
            values[5] = 5;
            values[6] = 1;
            values[7] = 1;
        }
        Kind::Utc => {
            values[5] = 4;
            values[6] = 1;
            values[7] = 56;
        }
        Kind::Other => values[5] = 4,
    }
    values
}

// Whether the values of a line end before this word.
fn is_end(word: &[u8]) -> bool {
    word.is_empty() || lines::same(word, b"inverted")
}

// The values of a kind that the words of a line from word `from` on write.
fn values_in(kind: Kind, line: &[u8], from: usize) -> Result<Given, Problem> {
    let mut values = first_values(kind);
    let limit = from.wrapping_add(values.len());
    for (i, next) in (from..limit).enumerate() {
        let word = lines::word(line, next);
        if is_end(word) {
            return Ok(Given { kind, values, next });
        }
        let (number, digits) = field_of(kind, word, i).ok_or(Problem::NoField)?;
        let value = values.get_mut(number).ok_or(Problem::NoField)?;
        *value = digits::whole(digits).ok_or(Problem::NoNumber)?;
    }
    Ok(Given {
        kind,
        values,
        next: limit,
    })
}

// What the words from word i on give: a kind, and values.
pub(crate) fn given_at(line: &[u8], i: usize) -> Result<Given, Problem> {
    let kind = kind_at(line, i).ok_or(Problem::NoKind)?;
    values_in(kind, line, i.wrapping_add(1))
}

// The values that the words from word i to the line's end give, where they are of this kind.
pub(crate) fn values_of_kind(line: &[u8], i: usize, kind: Kind) -> Result<[i64; 25], Problem> {
    let given = given_at(line, i)?;
    ends(line, given.next)?;
    if given.kind == kind {
        Ok(given.values)
    } else {
        Err(Problem::NoKind)
    }
}
