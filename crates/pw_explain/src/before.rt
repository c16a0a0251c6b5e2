//! What the lines before a line declare, by their words. They have no fault.
ghost use Rattle.std.specs.Prelude.{◌≡◌, ◌<◌, length, IfSome};

use crate::near::Nearest;
use crate::shape::Shape;
use crate::sort::{Sort, Stand};
use pw_info::{TextLines, Words, idles, next_line};

/// A line that declares a name, and its number.
#[derive(Clone, Copy)]
pub(crate) struct Declaring<'a> {
    pub(crate) number: u32,
    pub(crate) line: &'a [u8],
    pub(crate) name: &'a [u8],
}

/// The lines that declare names of a sort, one after another.
#[derive(Drop)]
struct Declarings<'a> {
    lines: TextLines<'a>,
    number: u32,
    stand: Stand,
    sort: Sort,
}

impl<'a> Declarings<'a> {
    // The next of them.
    fn next(&mut self) -> Option<Declaring<'a>>
        ensures { IfSome result (λ _. length self.new.lines < length self.old.lines) }
    {
        while let Some(line) = self.lines.next() {
            let number = self.number;
            self.number = number.saturating_add(1);
            if let Some(name) = self.name_in(line) {
                return Some(Declaring { number, line, name });
            }
        }
        None
    }

    // The name of the sort that the line declares, if it does. The next line stands after it.
    fn name_in(&mut self, line: &'a [u8]) -> Option<&'a [u8]>
        ensures { self.new.lines ≡ self.old.lines }
    {
        if idles(line) {
            return None;
        }
        let stand = self.stand;
        self.stand = stand.after(line);
        if stand != self.sort.stand() {
            return None;
        }
        self.sort.name_in(line)
    }
}

/// A compound that has begun and not ended.
#[derive(Clone, Copy)]
pub(crate) struct Opened<'a> {
    /// The number of the line that begins it.
    pub(crate) number: u32,
    /// That line, and the lines after it.
    pub(crate) text: &'a [u8],
}

/// The lines that may declare the names in a line.
#[derive(Clone, Copy)]
pub(crate) struct Before<'a> {
    // The table of the procedures and of the compounds that every declaration has.
    table: &'a [u8],
    // The lines outside the open compound, if there is one.
    outer: &'a [u8],
    pub(crate) stand: Stand,
    pub(crate) opened: Option<Opened<'a>>,
}

impl<'a> Before<'a> {
    /// What a whole declaration declares.
    pub(crate) fn whole(table: &'a [u8], text: &'a [u8]) -> Before<'a> {
        Before {
            table,
            outer: text,
            stand: Stand::Outside,
            opened: None,
        }
    }

    /// What the lines of the text declare, each of which has a line feed.
    pub(crate) fn of(table: &'a [u8], text: &'a [u8]) -> Before<'a> {
        let mut stand = Stand::BeforeHeader;
        let mut number = 1u32;
        let mut opened = Opened { number, text };
        let mut rest = text;
        while let Some((line, after)) = next_line(rest) {
            if !idles(line) {
                if stand == Stand::Outside {
                    opened = Opened { number, text: rest };
                }
                stand = stand.after(line);
            }
            number = number.saturating_add(1);
            rest = after;
        }
        Before::around(table, text, stand, opened)
    }

    // The same, where this is the last line that stands outside compounds, with the lines after it.
    fn around(table: &'a [u8], text: &'a [u8], stand: Stand, last: Opened<'a>) -> Before<'a> {
        if stand != Stand::Inside {
            return Before {
                table,
                outer: text,
                stand,
                opened: None,
            };
        }
        let outer = match text.strip_suffix(last.text) {
            Some(outer) => outer,
            None => text,
        };
        Before {
            table,
            outer,
            stand,
            opened: Some(last),
        }
    }

    // The lines that declare names of this sort.
    fn declarings(&self, sort: Sort) -> Declarings<'a> {
        match (sort, self.opened) {
            (Sort::Local, Some(opened)) => Declarings {
                lines: TextLines::new(opened.text),
                number: opened.number,
                stand: Stand::Outside,
                sort,
            },
            _ => Declarings {
                lines: TextLines::new(self.outer),
                number: 1,
                stand: Stand::BeforeHeader,
                sort,
            },
        }
    }

    /// The line that declares the name of this sort.
    pub(crate) fn declaring(&self, sort: Sort, name: &[u8]) -> Option<Declaring<'a>> {
        let mut declarings = self.declarings(sort);
        while let Some(declaring) = declarings.next() {
            if declaring.name == name {
                return Some(declaring);
            }
        }
        None
    }

    /// The number of names of this sort.
    pub(crate) fn count(&self, sort: Sort) -> usize {
        let mut count = 0usize;
        let mut declarings = self.declarings(sort);
        while let Some(_) = declarings.next() {
            count = count.saturating_add(1);
        }
        count
    }

    /// Offers the names of this sort.
    pub(crate) fn offer_names(&self, sort: Sort, nearest: &mut Nearest<'a>) {
        let mut declarings = self.declarings(sort);
        while let Some(declaring) = declarings.next() {
            nearest.offer(declaring.name);
        }
    }

    /// The row of the table with this name.
    pub(crate) fn row(&self, name: &[u8]) -> Option<&'a [u8]> {
        let mut rows = TextLines::new(self.table);
        while let Some(row) = rows.next() {
            if Words::new(row).next() == Some(name) {
                return Some(row);
            }
        }
        None
    }

    /// Offers the names of the procedures and compounds.
    pub(crate) fn offer_callables(&self, nearest: &mut Nearest<'a>) {
        let mut rows = TextLines::new(self.table);
        while let Some(row) = rows.next() {
            if let Some(name) = Words::new(row).next() {
                nearest.offer(name);
            }
        }
        self.offer_names(Sort::Compound, nearest);
    }

    /// The kinds of the cells that the callable of this name takes.
    pub(crate) fn shape(&self, name: &[u8]) -> Option<Shape<'a>> {
        if let Some(row) = self.row(name) {
            return Some(Shape::of_row(row));
        }
        let declaring = self.declaring(Sort::Compound, name)?;
        Some(Shape::of_line(declaring.line))
    }

    /// The first line of the open compound.
    pub(crate) fn opening(&self) -> Option<&'a [u8]> {
        let opened = self.opened?;
        TextLines::new(opened.text).next()
    }

    /// The kind of the parameter of this name, if the open compound has it.
    pub(crate) fn parameter_kind(&self, name: &[u8]) -> Option<&'a [u8]> {
        let mut words = words_after_name(self.opening()?);
        while let Some(parameter) = words.next() {
            let kind = words.next();
            if parameter == name {
                return kind;
            }
        }
        None
    }

    /// Offers the names of the parameters and private cells of the open compound.
    pub(crate) fn offer_compound_cells(&self, nearest: &mut Nearest<'a>) {
        let Some(line) = self.opening() else {
            return;
        };
        let mut words = words_after_name(line);
        while let Some(parameter) = words.next() {
            words.next();
            nearest.offer(parameter);
        }
        self.offer_names(Sort::Local, nearest);
    }

    /// The kind of the cell of this name: of the open compound, or outside compounds.
    pub(crate) fn cell_kind(&self, name: &[u8]) -> Option<&'a [u8]> {
        if let Some(kind) = self.parameter_kind(name) {
            return Some(kind);
        }
        let sort = match self.opened {
            Some(_) => Sort::Local,
            None => Sort::Cell,
        };
        third_word(self.declaring(sort, name)?.line)
    }

    /// Whether a kind has this name.
    pub(crate) fn has_kind(&self, name: &[u8]) -> bool {
        is_built_in_kind(name) || self.declaring(Sort::Set, name).is_some()
    }

    /// Whether a procedure or a compound has this name.
    pub(crate) fn has_callable(&self, name: &[u8]) -> bool {
        self.row(name).is_some() || self.declaring(Sort::Compound, name).is_some()
    }

    /// Offers the names of the kinds.
    pub(crate) fn offer_kinds(&self, nearest: &mut Nearest<'a>) {
        nearest.offer(b"interval");
        nearest.offer(b"exact");
        nearest.offer(b"bool");
        nearest.offer(b"sign");
        self.offer_names(Sort::Set, nearest);
    }

    /// Whether the header names the second version.
    pub(crate) fn is_second_version(&self) -> bool {
        let mut lines = TextLines::new(self.outer);
        while let Some(line) = lines.next() {
            if !idles(line) {
                return second_word(line) == Some(b"2".as_slice());
            }
        }
        false
    }
}

/// Whether the word names a kind that every declaration has.
pub(crate) fn is_built_in_kind(word: &[u8]) -> bool {
    word == b"interval".as_slice()
        || word == b"exact".as_slice()
        || word == b"bool".as_slice()
        || word == b"sign".as_slice()
}

/// The second word of a line.
pub(crate) fn second_word(line: &[u8]) -> Option<&[u8]> {
    let mut words = Words::new(line);
    words.next();
    words.next()
}

/// The words of a line after the name that it declares.
pub(crate) fn words_after_name(line: &[u8]) -> Words<'_> {
    let mut words = Words::new(line);
    words.next();
    words.next();
    words
}

/// The third word of a line.
pub(crate) fn third_word(line: &[u8]) -> Option<&[u8]> {
    words_after_name(line).next()
}
