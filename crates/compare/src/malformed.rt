// Why a line is no command.
use order::UnknownEndian;
use std::fmt;
use thiserror::Error;

#[derive(Clone, Copy, Debug, Error)]
pub enum Malformed {
    #[error("there is no table yet: say new first")]
    NoTable,
    #[error("no such command")]
    UnknownCommand,
    #[error("no such kind")]
    UnknownKind,
    #[error("the {0} is missing")]
    Missing(Part),
    #[error("the {0} is not a number")]
    NotANumber(Part),
    #[error("the {0} does not fit")]
    TooLarge(Part),
    #[error("the flag is neither 0 nor 1")]
    NotAFlag,
    #[error("a name is = and its bytes, others than A-Za-z0-9_./- as %HH")]
    NotAName,
    #[error("the width is neither 4 nor 8")]
    NotAWidth,
    #[error(transparent)]
    Order(#[from] UnknownEndian),
    #[error("no kind has the number {0}")]
    NoKindNumber(u32),
    #[error("there are too many words")]
    TooManyWords,
}

// What a word stands for.
#[derive(Clone, Copy, Debug)]
pub enum Part {
    Kind,
    Name,
    NameOffset,
    Id,
    Size,
    Encoding,
    Offset,
    Length,
    Flag,
    Linkage,
    Component,
    Count,
    Element,
    Index,
    Width,
    Order,
}

// Written out, since texts are derived for errors alone, and a part is none.
impl fmt::Display for Part {
    fn fmt<W: fmt::Write>(&self, f: &mut fmt::Formatter<W>) -> fmt::Result {
        f.write_str(match self {
            Part::Kind => "kind",
            Part::Name => "name",
            Part::NameOffset => "name offset",
            Part::Id => "id",
            Part::Size => "size",
            Part::Encoding => "encoding",
            Part::Offset => "offset",
            Part::Length => "length",
            Part::Flag => "flag",
            Part::Linkage => "linkage",
            Part::Component => "component",
            Part::Count => "count",
            Part::Element => "element",
            Part::Index => "index",
            Part::Width => "width",
            Part::Order => "byte order",
        })
    }
}
