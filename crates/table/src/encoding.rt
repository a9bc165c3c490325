// Encoding: the header, the declarations in rising id order, the strings.
ghost use Rattle.std.specs.Prelude.{◌≡◌, ◌+◌, ◌*◌, ◌/◌, ◌%◌, ◌^◌, ◌<◌, ◌≤◌, ◌++◌, map, length, take, drop, sum_by, ◌==◌, All, IfOk};
ghost use Rattle.std.specs.List.{flat_map};
ghost use Rattle.layout.specs.Info.{low_of};
ghost use Rattle.meaning.specs.File.{coded, header, decl_words, type_part, file, encode};
ghost use Rattle.promises.specs.Examples.{ExamplesHold};
ghost use Rattle.promises.specs.Rewritings.{RewritingsHold};
ghost use Rattle.promises.specs.Promises.{OneFileOneTable, LengthAddsUp};
ghost use Rattle.promises.specs.Lasting.{OneEncodingOneTable, SizesAndEndsStay, RulesDone, NoRefusedKindLeft, LengthAddsUpWithRewritings};
ghost use Rattle.rows.specs.Rows.{decl_of, head_words};
ghost use Rattle.rows.specs.Views.{decls};
ghost use Rattle.table.specs.Placed.{Placed, row_length};
ghost use Rattle.table.specs.Tables.{table_of, written};
ghost use Rattle.table.specs.Writing.{Room, Wrote, kept};

use crate::btf::Btf;
use crate::writer::Writer;
use elements::Element;
use layout::{BtfError, BtfKind, BtfType};
use order::ByteOrder;
use rows::{TypeRow, View};

const MAGIC: u16 = 0xeb9f;

const VERSION: u8 = 1;

const FLAGS: u8 = 0;

const HEADER_LEN: usize = 24;

impl<O: ByteOrder> Writer<'_, O> {
    // The header of a file with so many bytes of declarations and of strings.
    fn header(&mut self, types: u32, strings: u32)
        requires { Room self.old 24 }
        ensures { Wrote self.old (header O.ByteOrder.order types strings) self.new }
    {
        let magic = self.order.half(MAGIC);
        self.bytes(&magic);
        self.bytes(&[VERSION, FLAGS]);
        self.words(&[HEADER_LEN as u32, 0, types, types, strings]);
    }

    // Declarations one behind the other, in rising id order. What is written is a list, and its length has a clause of
    // its own, `end`, here and below: it is the length by the kind, which the room is stated by.
    fn rows(&mut self, view: &View)
        requires placed { All (Placed (length view.now.elements.now)) view.now.rows.now }
        requires room { Room self.old (sum_by row_length view.now.rows.now) }
        ensures bytes { Wrote self.old (type_part O.ByteOrder.order (decls view.now)) self.new }
        ensures end { self.new.at ≡ self.old.at + sum_by row_length view.now.rows.now }
    {
        for row in view.rows {
            self.row(row, view);
        }
    }

    // A declaration, by what follows the head of its kind. A constant for each case, since encoding is to take at most
    // four times a plain copy: with `kind.extra_words()` passed and no cases, 1,000 took 13.6 us in place of 3.7.
    fn row(&mut self, row: &TypeRow, view: &View)
        requires placed { Placed (length view.now.elements.now) row.now }
        requires room { Room self.old (row_length row.now) }
        ensures bytes { Wrote self.old (coded O.ByteOrder.order (decl_words (decl_of view.now.elements.now row.now))) self.new }
        ensures end { self.new.at ≡ self.old.at + row_length row.now }
    {
        match row.head.kind() {
            BtfKind::Unknown => {}
            BtfKind::Int | BtfKind::Var | BtfKind::DeclTag => self.head(&row.head, 1),
            BtfKind::Array => self.head(&row.head, 3),
            BtfKind::Enum | BtfKind::FuncProto => self.head_with(&row.head, view.tail(row), 2),
            BtfKind::Struct | BtfKind::Union | BtfKind::DataSec | BtfKind::Enum64 => {
                self.head_with(&row.head, view.tail(row), 3)
            }
            _ => self.head(&row.head, 0),
        }
    }

    // A head with so many extra words, which are at most the three of the array.
    fn head(&mut self, head: &BtfType, extra: usize)
        requires few { extra ≤ 3 }
        requires room { Room self.old (12 + 4 * extra) }
        ensures bytes { Wrote self.old (coded O.ByteOrder.order (head_words head.now extra)) self.new }
        ensures end { self.new.at ≡ self.old.at + (12 + 4 * extra) }
    {
        let [a, b, c] = head.extra;
        let words = [head.name_offset, head.info, head.size_or_type, a, b, c];
        self.words(&words[0..3 + extra]);
    }

    // A head without extra words and its elements, of `width` words each: at most the three that an element keeps, here
    // and in the two functions below.
    fn head_with(&mut self, head: &BtfType, tail: &[Element], width: usize)
        requires wide { width ≤ 3 }
        requires room { Room self.old (12 + 4 * (width * length tail.now)) }
        ensures bytes { Wrote self.old (coded O.ByteOrder.order (head_words head.now 0 ++ flat_map (kept width) tail.now)) self.new }
        ensures end { self.new.at ≡ self.old.at + (12 + 4 * (width * length tail.now)) }
    {
        self.head(head, 0);
        self.tail(tail, width);
    }

    // The elements of a tail, of `width` words each: one text for every type.
    fn tail(&mut self, tail: &[Element], width: usize)
        requires wide { width ≤ 3 }
        requires room { Room self.old (4 * (width * length tail.now)) }
        ensures bytes { Wrote self.old (coded O.ByteOrder.order (flat_map (kept width) tail.now)) self.new }
        ensures end { self.new.at ≡ self.old.at + 4 * (width * length tail.now) }
    {
        for element in tail {
            self.element(element, width);
        }
    }

    // The first `width` words of an element.
    fn element(&mut self, element: &Element, width: usize)
        requires wide { width ≤ 3 }
        requires room { Room self.old (4 * width) }
        ensures bytes { Wrote self.old (coded O.ByteOrder.order (kept width element.now)) self.new }
        ensures end { self.new.at ≡ self.old.at + 4 * width }
    {
        // one by one, since of the array copied whole the proof finds no length; all are read before one is written
        let [a, b, c] = *element.words();
        let words = [a, b, c];
        self.words(&words[0..width]);
    }
}

impl Btf<'_> {
    // Writes the file of the table into the buffer in a byte order, and answers how many bytes it has.
    // The rest of the buffer is left as it was, and all of it where the buffer is too short.
    // After whatever calls: equal files come from equal tables, which answer every question alike, and the
    // type part is as long as what was added.
    // With rewritings among the calls, as they are defined (no call here rewrites yet): equal encodings come from
    // tables that answer every question and are rewritten alike; a rewriting keeps sizes and ends of data kinds, does
    // every rule and leaves no refused kind; the type part is as long as what was added and answered.
    pub fn to_bytes<O: ByteOrder>(
        &self,
        strings: &[u8],
        order: &O,
        out: &mut [u8],
    ) -> Result<usize, BtfError>
        ensures file { written result out.new ≡ encode O.ByteOrder.order (table_of self.now strings.now) out.old }
        ensures whole { IfOk result (λ n. n ≡ length (file O.ByteOrder.order (table_of self.now strings.now))) }
        ensures one_file { OneFileOneTable }
        ensures length { LengthAddsUp }
        ensures examples { ExamplesHold }
        ensures one_encoding { OneEncodingOneTable }
        ensures sizes { SizesAndEndsStay }
        ensures rules { RulesDone }
        ensures kinds { NoRefusedKindLeft }
        ensures length_with_rewritings { LengthAddsUpWithRewritings }
        ensures rewritings { RewritingsHold }
    {
        self.encode(strings, order, out)
    }

    // `to_bytes` without the promises, so that the proof of the file stands apart from theirs.
    fn encode<O: ByteOrder>(
        &self,
        strings: &[u8],
        order: &O,
        out: &mut [u8],
    ) -> Result<usize, BtfError>
        ensures file { written result out.new ≡ encode O.ByteOrder.order (table_of self.now strings.now) out.old }
        ensures whole { IfOk result (λ n. n ≡ length (file O.ByteOrder.order (table_of self.now strings.now))) }
    {
        let view = self.view(strings)?;
        let needed = HEADER_LEN + self.type_bytes + self.string_len;
        if out.len() < needed {
            return Err(BtfError::OutputTooShort { needed });
        }
        let mut writer = Writer { order, out, at: 0 };
        writer.header(self.type_bytes as u32, self.string_len as u32);
        writer.rows(&view);
        writer.bytes(view.strings);
        Ok(needed)
    }
}
